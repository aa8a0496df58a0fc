// The services, asked by one function.
ghost use Rattle.std.specs.Prelude.{◌≤◌, length, IfOk};
ghost use Rattle.tables.specs.Entries.{Valid};

use crate::meanings;
use lyrecanyon::Answer;
use rules::Refusal;
use uses::{INDEXES, Index};

// What is asked for: the services, and whether a format, a table or a record is good by itself.
#[derive(Clone, Copy)]
pub enum Service {
    Read,
    Update,
    Empty,
    Explain,
    Table,
    Record,
}

// Whether a table is good by itself.
fn check_table(t: &[u8]) -> Result<(), Refusal> {
    if tables::valid(t) {
        Ok(())
    } else {
        Err(Refusal::BadTable)
    }
}

// Whether a record is: a read with no format at all is refused with bad syntax, unless the table or the record is refused before that.
fn check_record(t: &[u8], record: &[u8], room: &mut [u8]) -> Result<(), Refusal> {
    match lyrecanyon::read(t, record, b"", room) {
        Err(Refusal::BadTable) => Err(Refusal::BadTable),
        Err(Refusal::BadRecord) => Err(Refusal::BadRecord),
        _ => Ok(()),
    }
}

// Whether a use rule refuses an element of a format in a read.
fn explain_elements(t: &[u8], f: &[u8]) -> Result<(), Refusal>
    requires { Valid t.now }
{
    let mut last: [Index; INDEXES] = [0; INDEXES];
    let mut at = 0;
    loop {
        let (_, _, stop) = meanings::next(t, f, at, &mut last)?;
        if format_buffer::syntax::is_last(f, stop) {
            return Ok(());
        }
        at = stop + 1;
    }
}

fn explain(t: &[u8], f: &[u8]) -> Result<(), Refusal> {
    if !tables::valid(t) {
        return Err(Refusal::BadTable);
    }
    if !format_buffer::syntax::syntax(f) {
        return Err(Refusal::BadSyntax);
    }
    explain_elements(t, f)
}

// How many bytes stand at the front of the room, or why the call is refused.
pub(crate) fn ask(
    service: Service,
    t: &[u8],
    record: &[u8],
    f: &[u8],
    values: &[u8],
    room: &mut [u8],
) -> Answer
    ensures { IfOk result (λ used. used ≤ length room.new) }
{
    match service {
        Service::Read => lyrecanyon::read(t, record, f, room),
        Service::Update => lyrecanyon::update(t, record, f, values, room),
        Service::Empty => lyrecanyon::empty(t, room),
        Service::Explain => explain(t, f).map(|_| 0),
        Service::Table => check_table(t).map(|_| 0),
        Service::Record => check_record(t, record, room).map(|_| 0),
    }
}
