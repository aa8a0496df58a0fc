// What the record buffer gives to the occurrences that a format names (7, 8, 9): each value to a stage, in normal form at its field's own
// format and length. Where the values of each use begin is noted.
#![tactic(auto)]

ghost use Rattle.std.specs.Prelude.{◌*◌, ◌≤◌, ◌<◌, length};
ghost use Rattle.rules.specs.Lists.{Bytes};
ghost use Rattle.rules.specs.Use.{items_of};
ghost use Rattle.tables.specs.Entries.{Valid, entries_of};
ghost use Rattle.uses.specs.Kept.{numbers_kept, GoodUses};
ghost use Rattle.uses.specs.Meant.{GoodUse, use_meant};
ghost use Rattle.taking.specs.Taking.{Takes, Ready, Gave, Passed, CanTake};

mod spans;
mod value;

use rules::Refusal;
use uses::Use;

// Where the items of a call stand: at a place of the record buffer, with `staged` bytes on the stage. Where the stage is full the new record
// is too long, and the items are only tested.
#[derive(Clone, Copy)]
pub struct Taking {
    pub at: usize,
    pub staged: usize,
    pub full: bool,
}

// Passes over n bytes, which are given to nothing.
fn pass(buffer: &[u8], n: usize, s: Taking) -> Result<Taking, Refusal>
    requires { s.at ≤ length buffer.now }
    ensures { Passed buffer.now n s result }
{
    if buffer.len() - s.at < n {
        return Err(Refusal::BeyondBuffer);
    }
    Ok(Taking { at: s.at + n, ..s })
}

// The items of a use. Counts, spaces and text are passed over.
fn take_use(
    t: &[u8],
    buffer: &[u8],
    u: Use,
    list: &mut [u16],
    stage: &mut [u8],
    s: Taking,
) -> Result<Taking, Refusal>
    requires { Valid t.now × ((f : Bytes) × GoodUse (entries_of t.now) f u) × Ready (entries_of t.now) buffer.now list.old stage.old s }
    ensures { (f : Bytes) → GoodUse (entries_of t.now) f u → Takes (entries_of t.now) buffer.now (items_of (use_meant (entries_of t.now) f u)) s list.old list.new stage.old stage.new result }
{
    match u {
        Use::Blanks(n) => pass(buffer, n, s),
        Use::Text(from, upto) => pass(buffer, upto - from, s),
        Use::GroupCount(_) | Use::ValueCount(_, _) => pass(buffer, 1, s),
        Use::Values(span) => spans::take_occurrences(t, buffer, span, list, stage, s),
    }
}

// The items of the first `count` uses that are kept.
#[tactic(auto, using(tables::proofs::Tables::valid_most, tables::proofs::Tables::valid_names, crate::proofs::Kept::gone_start))]
pub fn take(
    t: &[u8],
    buffer: &[u8],
    kept: &[uses::Index],
    count: usize,
    list: &mut [u16],
    stage: &mut [u8],
) -> Result<Taking, Refusal>
    requires { Valid t.now × (numbers_kept * count ≤ length kept.now) × ((f : Bytes) × GoodUses (entries_of t.now) f kept.now count) × CanTake count list.old stage.old }
    ensures { (f : Bytes) → GoodUses (entries_of t.now) f kept.now count → Gave (entries_of t.now) f buffer.now kept.now count list.new stage.new result }
{
    let mut state = Taking {
        at: 0,
        staged: 0,
        full: false,
    };
    for n in 0..count {
        assignments::begin(list, n, state.staged);
        state = take_use(t, buffer, uses::kept::get(kept, n), list, stage, state)?;
    }
    Ok(state)
}
