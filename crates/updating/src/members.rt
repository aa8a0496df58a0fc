// The occurrences of a periodic group in the new record: what its members add, one after the other.
ghost use Rattle.std.specs.Prelude.{◌≡◌, true, ◌+◌, ◌-◌, ◌≤◌, ◌<◌, length, drop};
ghost use Rattle.rules.specs.Limits.{highest_index};
ghost use Rattle.rules.specs.Table.{group};
ghost use Rattle.tables.specs.Entries.{Valid, entries_of, what_at};
ghost use Rattle.tables.specs.Groups.{group_end};
ghost use Rattle.filling.specs.Filling.{Roomy};
ghost use Rattle.updating.specs.Laid.{occurrence_laid, occurrences_laid};
ghost use Rattle.updating.specs.New.{HasBoth, Puts};
ghost use Rattle.updating.specs.Member.{HasMember, PutsMember, members_laid, CellsFollow, CanPutOccurrence};

use crate::cells;
use records::DIRECTORY;
use rules::Refusal;
use uses::Index;

// What entry i adds to occurrence o of the periodic group that it lies in: its cell where it is a field, and else nothing.
fn put_member(
    t: &[u8],
    b: &[u8],
    kept: &[Index],
    list: &[u16],
    stage: &[u8],
    i: usize,
    o: usize,
    cell: Option<usize>,
    out: &mut [u8],
    at: usize,
    end: usize,
) -> Result<usize, Refusal>
    requires { Valid t.now × (i < length (entries_of t.now)) × (1 ≤ o) × (o ≤ highest_index) × HasMember (entries_of t.now) b.now kept.now list.now stage.now i o cell × Roomy at end out.old }
    ensures { PutsMember (entries_of t.now) b.now kept.now list.now stage.now i o cell at end out.old out.new result }
{
    if tables::group_at(t, i) {
        return Ok(at);
    }
    cells::put_cell(t, b, kept, list, stage, i, o, cell, out, at, end)
}

// What the entries from first up to last add to occurrence o, one after the other, beside the cells that they had.
#[tactic(auto, using(tables::proofs::Tables::valid_most))]
pub fn put_members(
    t: &[u8],
    b: &[u8],
    places: &[u16; DIRECTORY],
    kept: &[Index],
    list: &[u16],
    stage: &[u8],
    first: usize,
    last: usize,
    o: usize,
    had: Option<usize>,
    out: &mut [u8],
    at: usize,
    end: usize,
) -> Result<usize, Refusal>
    requires { Valid t.now × (last ≤ length (entries_of t.now)) × (1 ≤ o) × (o ≤ highest_index) × HasBoth (entries_of t.now) b.now places.now kept.now list.now stage.now × CellsFollow (entries_of t.now) b.now places.now first last o had × Roomy at end out.old }
    ensures { Puts (entries_of t.now) b.now places.now kept.now list.now stage.now (λ w r. members_laid w o (entries_of t.now) first (last - first)) at end out.old out.new result }
{
    let mut cell = had;
    let mut p = at;
    for i in first..last {
        p = put_member(t, b, kept, list, stage, i, o, cell, out, p, end)?;
        if i + 1 < last {
            cell = records::places::next_cell(t, b, i, cell);
        }
    }
    Ok(p)
}

// Occurrence o of the periodic group that entry g is, with members up to last.
#[tactic(auto, using(tables::proofs::Tables::valid_most))]
fn put_occurrence(
    t: &[u8],
    b: &[u8],
    places: &[u16; DIRECTORY],
    kept: &[Index],
    list: &[u16],
    stage: &[u8],
    g: usize,
    last: usize,
    o: usize,
    out: &mut [u8],
    at: usize,
    end: usize,
) -> Result<usize, Refusal>
    requires { Valid t.now × (g < length (entries_of t.now)) × (what_at (entries_of t.now) g ≡ group true) × CanPutOccurrence (entries_of t.now) b.now places.now kept.now list.now stage.now g last o at end out.old }
    ensures { Puts (entries_of t.now) b.now places.now kept.now list.now stage.now (λ w r. occurrence_laid w o (drop (g + 1) (entries_of t.now))) at end out.old out.new result }
{
    let had = records::places::first_cell(t, b, places, g, o);
    put_members(
        t,
        b,
        places,
        kept,
        list,
        stage,
        g + 1,
        last,
        o,
        had,
        out,
        at,
        end,
    )
}

// Occurrences 1 to n of the periodic group that entry g is.
pub fn put_occurrences(
    t: &[u8],
    b: &[u8],
    places: &[u16; DIRECTORY],
    kept: &[Index],
    list: &[u16],
    stage: &[u8],
    g: usize,
    last: usize,
    n: usize,
    out: &mut [u8],
    at: usize,
    end: usize,
) -> Result<usize, Refusal>
    requires { Valid t.now × (g < length (entries_of t.now)) × (what_at (entries_of t.now) g ≡ group true) × (last ≡ group_end (entries_of t.now) g) × (n ≤ highest_index) × HasBoth (entries_of t.now) b.now places.now kept.now list.now stage.now × Roomy at end out.old }
    ensures { Puts (entries_of t.now) b.now places.now kept.now list.now stage.now (λ w r. occurrences_laid w (drop (g + 1) (entries_of t.now)) 1 n) at end out.old out.new result }
{
    let mut p = at;
    for o in 1..=n {
        p = put_occurrence(t, b, places, kept, list, stage, g, last, o, out, p, end)?;
    }
    Ok(p)
}
