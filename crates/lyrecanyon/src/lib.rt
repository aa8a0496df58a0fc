// The services: read, update, and the empty record of a table.
#![tactic(auto)]

ghost use Rattle.std.specs.Prelude.{◌≡◌, min, length, take};
ghost use Rattle.rules.specs.Limits.{longest_items};
ghost use Rattle.rules.specs.Services as Rules;
ghost use Rattle.tables.specs.Entries.{Valid, entries_of};
ghost use Rattle.records.specs.Places.{HasRecord};
ghost use Rattle.lyrecanyon.specs.Answers.{Settled, answer_number, answer_length, answer_needed};

mod making;

use rules::Refusal;

// An answer up to this length is made in a work area first, so that one pass over the format is enough.
const LARGE: usize = 4096;

// Short formats on short records mostly give short answers; a smaller work area is cheaper to clear.
const SMALL: usize = 512;

const SHORT_FORMAT: usize = 64;

const SHORT_RECORD: usize = 256;

// What a service answers: the number of bytes written, or why it is refused, with nothing changed.
pub type Answer = Result<usize, Refusal>;

// The number that is returned: 0 where it is done, else that of the refusal.
pub fn number(answer: Answer) -> u8
    ensures { result ≡ answer_number answer }
{
    match answer {
        Ok(_) => 0,
        Err(x) => x.number(),
    }
}

// The length used, 0 where it is refused.
pub fn length_used(answer: Answer) -> usize
    ensures { result ≡ answer_length answer }
{
    answer.unwrap_or(0)
}

// With 9 the smallest length that would have held the value that is read, or 0 outside the conversion range. Elsewhere 0.
pub fn length_needed(answer: Answer) -> u8
    ensures { result ≡ answer_needed answer }
{
    match answer {
        Ok(_) => 0,
        Err(x) => x.length(),
    }
}

// The items of a format. All are tested first, in their order, so that a refusal changes no byte.
fn read_long(
    table: &[u8],
    stored: &[u8],
    places: &[u16; records::DIRECTORY],
    format: &[u8],
    buffer: &mut [u8],
    end: usize,
) -> Answer
    requires { Valid table.now × HasRecord (entries_of table.now) stored.now places.now × (end ≡ min (length buffer.old) longest_items) }
    ensures { Settled (Rules.read table.now stored.now format.now (length buffer.old)) buffer.old buffer.new result }
{
    reading::scan(table, stored, places, format, buffer, end, false)?;
    reading::scan(table, stored, places, format, buffer, end, true)
}

// The same, made in a work area first: a refusal for want of room there tells nothing of a longer buffer.
fn read_short(
    table: &[u8],
    stored: &[u8],
    places: &[u16; records::DIRECTORY],
    format: &[u8],
    buffer: &mut [u8],
    area: &mut [u8],
) -> Answer
    requires { Valid table.now × HasRecord (entries_of table.now) stored.now places.now }
    ensures { Settled (Rules.read table.now stored.now format.now (length buffer.old)) buffer.old buffer.new result }
{
    let end = buffer.len().min(rules::LONGEST_ITEMS);
    let room = end.min(area.len());
    match reading::scan(table, stored, places, format, area, room, true) {
        Ok(made) => {
            buffer::put(&area[..made], buffer, 0);
            Ok(made)
        }
        Err(x) => {
            if room < end && x == Refusal::BeyondBuffer {
                return read_long(table, stored, places, format, buffer, end);
            }
            Err(x)
        }
    }
}

// The same, in a work area by the lengths of format and record.
fn read_items(
    table: &[u8],
    stored: &[u8],
    places: &[u16; records::DIRECTORY],
    format: &[u8],
    buffer: &mut [u8],
) -> Answer
    requires { Valid table.now × HasRecord (entries_of table.now) stored.now places.now }
    ensures { Settled (Rules.read table.now stored.now format.now (length buffer.old)) buffer.old buffer.new result }
{
    if format.len() <= SHORT_FORMAT && stored.len() <= SHORT_RECORD {
        let mut area = [0u8; SMALL];
        return read_short(table, stored, places, format, buffer, &mut area);
    }
    let mut area = [0u8; LARGE];
    read_short(table, stored, places, format, buffer, &mut area)
}

// Fills the record buffer with the items of a format.
pub fn read(table: &[u8], stored: &[u8], format: &[u8], buffer: &mut [u8]) -> Answer
    ensures { Settled (Rules.read table.now stored.now format.now (length buffer.old)) buffer.old buffer.new result }
{
    if !tables::valid(table) {
        return Err(Refusal::BadTable);
    }
    let mut places = [0u16; records::DIRECTORY];
    if !records::walk::check(table, stored, &mut places) {
        return Err(Refusal::BadRecord);
    }
    read_items(table, stored, &places, format, buffer)
}

// Stores new values: the new record, to the front of the room. It is made by itself first, so that a refusal changes nothing.
pub fn update(table: &[u8], stored: &[u8], format: &[u8], buffer: &[u8], room: &mut [u8]) -> Answer
    ensures { Settled (Rules.update table.now stored.now format.now buffer.now (length room.old)) room.old room.new result }
{
    let mut record = [0u8; rules::LONGEST_NEW_RECORD];
    let answer = making::make(table, stored, format, buffer, &mut record);
    making::lend(answer, &record, room)
}

// Stores new values where the record stands, which is the first `used` bytes of a slice: the new record takes the place of the old one, or
// nothing changes.
pub fn apply(table: &[u8], stored: &mut [u8], used: usize, format: &[u8], buffer: &[u8]) -> Answer
    ensures { Settled (Rules.update table.now (take used stored.old) format.now buffer.now (length stored.old)) stored.old stored.new result }
{
    let end = stored.len().min(used);
    let mut new = [0u8; rules::LONGEST_NEW_RECORD];
    let answer = making::make(table, &stored[..end], format, buffer, &mut new);
    making::lend(answer, &new, stored)
}

// The empty record of a table, to the front of the room. It is built by itself first, so that a refusal changes nothing.
pub fn empty(table: &[u8], room: &mut [u8]) -> Answer
    ensures { Settled (Rules.empty table.now (length room.old)) room.old room.new result }
{
    if !tables::valid(table) {
        return Err(Refusal::BadTable);
    }
    let size = records::empty::empty_length(table);
    if rules::LONGEST_NEW_RECORD < size || room.len() < size {
        return Err(Refusal::NoRoom);
    }
    let mut record = [0u8; rules::LONGEST_NEW_RECORD];
    records::empty::write_empty(table, &mut record);
    buffer::put(&record[..size], room, 0);
    Ok(size)
}
