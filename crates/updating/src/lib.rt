// The new record of an update, laid out in table order.
#![tactic(auto)]

ghost use Rattle.std.specs.Prelude.{◌≡◌, true, false, ◌+◌, ◌-◌, ◌≤◌, ◌<◌, length};
ghost use Rattle.rules.specs.Limits.{longest_new_record};
ghost use Rattle.rules.specs.Outcome.{done};
ghost use Rattle.rules.specs.Lists.{Bytes};
ghost use Rattle.rules.specs.Table.{group};
ghost use Rattle.tables.specs.Entries.{Valid, entries_of, is_group, what_at};
ghost use Rattle.tables.specs.Groups.{field_at};
ghost use Rattle.tables.specs.Places.{inside_at};
ghost use Rattle.records.specs.Places.{HasRecord};
ghost use Rattle.filling.specs.Filling.{Roomy, Filling, in_room};
ghost use Rattle.updating.specs.Laid.{cell_laid, entry_added, group_added, record_added};
ghost use Rattle.updating.specs.New.{HasBoth, Puts, Between};

mod cells;
mod members;

use records::DIRECTORY;
use rules::Refusal;
use uses::Index;

// The periodic group that entry g is: the larger of its old count and the highest occurrence named, and as many occurrences.
#[tactic(auto, using(tables::proofs::Tables::valid_most))]
fn put_named_group(
    t: &[u8],
    b: &[u8],
    places: &[u16; DIRECTORY],
    kept: &[Index],
    list: &[u16],
    stage: &[u8],
    g: usize,
    out: &mut [u8],
    at: usize,
    end: usize,
) -> Result<usize, Refusal>
    requires { Valid t.now × (g < length (entries_of t.now)) × (what_at (entries_of t.now) g ≡ group true) × HasBoth (entries_of t.now) b.now places.now kept.now list.now stage.now × Roomy at end out.old }
    ensures { Puts (entries_of t.now) b.now places.now kept.now list.now stage.now (group_added (entries_of t.now) g) at end out.old out.new result }
{
    let old = records::places::group_count(t, b, places, g);
    let last = tables::group_end(t, g);
    let highest = assignments::highest_occurrence(kept, list, g + 1, last);
    let n = old.max(highest);
    let p = cells::put_count(n, out, at, end)?;
    members::put_occurrences(t, b, places, kept, list, stage, g, last, n, out, p, end)
}

// The old bytes from entry first's part up to that of entry next, in one piece.
fn put_kept(
    t: &[u8],
    b: &[u8],
    places: &[u16; DIRECTORY],
    first: usize,
    next: usize,
    out: &mut [u8],
    at: usize,
    end: usize,
) -> Result<usize, Refusal>
    requires { Valid t.now × (first ≤ next) × (next ≤ length (entries_of t.now)) × HasRecord (entries_of t.now) b.now places.now × ((old : Bytes) × Between (entries_of t.now) b.now first next old) × Roomy at end out.old }
    ensures { (old : Bytes) → Between (entries_of t.now) b.now first next old → Filling (in_room (end - at) (done old)) at true out.old out.new result }
{
    let from = records::places::part_start(t, b, places, first);
    let upto = records::places::part_start(t, b, places, next);
    filling::put_bytes(&b[from..upto], out, at, end, true)
}

// The periodic group that entry g is: as it was where none of its fields is named.
#[tactic(auto, using(tables::proofs::Tables::valid_most))]
fn put_group(
    t: &[u8],
    b: &[u8],
    places: &[u16; DIRECTORY],
    kept: &[Index],
    list: &[u16],
    stage: &[u8],
    g: usize,
    out: &mut [u8],
    at: usize,
    end: usize,
) -> Result<usize, Refusal>
    requires { Valid t.now × (g < length (entries_of t.now)) × (what_at (entries_of t.now) g ≡ group true) × HasBoth (entries_of t.now) b.now places.now kept.now list.now stage.now × Roomy at end out.old }
    ensures { Puts (entries_of t.now) b.now places.now kept.now list.now stage.now (group_added (entries_of t.now) g) at end out.old out.new result }
{
    let last = tables::group_end(t, g);
    if assignments::highest_occurrence(kept, list, g + 1, last) == 0 {
        return put_kept(t, b, places, g, last, out, at, end);
    }
    put_named_group(t, b, places, kept, list, stage, g, out, at, end)
}

// The field outside periodic groups that entry i is: as it was where it is not named.
#[tactic(auto, using(tables::proofs::Tables::valid_most))]
fn put_field(
    t: &[u8],
    b: &[u8],
    places: &[u16; DIRECTORY],
    kept: &[Index],
    list: &[u16],
    stage: &[u8],
    i: usize,
    out: &mut [u8],
    at: usize,
    end: usize,
) -> Result<usize, Refusal>
    requires { Valid t.now × (i < length (entries_of t.now)) × (is_group (what_at (entries_of t.now) i) ≡ false) × (inside_at (entries_of t.now) i ≡ false) × HasBoth (entries_of t.now) b.now places.now kept.now list.now stage.now × Roomy at end out.old }
    ensures { Puts (entries_of t.now) b.now places.now kept.now list.now stage.now (λ w r. cell_laid w 1 (field_at (entries_of t.now) i)) at end out.old out.new result }
{
    if assignments::highest_occurrence(kept, list, i, i + 1) == 0 {
        return put_kept(t, b, places, i, i + 1, out, at, end);
    }
    let had = records::places::outside_cell(t, b, places, i);
    members::put_members(
        t,
        b,
        places,
        kept,
        list,
        stage,
        i,
        i + 1,
        1,
        had,
        out,
        at,
        end,
    )
}

// What entry i adds to the new record.
fn put_entry(
    t: &[u8],
    b: &[u8],
    places: &[u16; DIRECTORY],
    kept: &[Index],
    list: &[u16],
    stage: &[u8],
    i: usize,
    inside: bool,
    out: &mut [u8],
    at: usize,
    end: usize,
) -> Result<usize, Refusal>
    requires { Valid t.now × (i < length (entries_of t.now)) × (inside ≡ inside_at (entries_of t.now) i) × HasBoth (entries_of t.now) b.now places.now kept.now list.now stage.now × Roomy at end out.old }
    ensures { Puts (entries_of t.now) b.now places.now kept.now list.now stage.now (entry_added (entries_of t.now) inside i) at end out.old out.new result }
{
    if tables::periodic_at(t, i) {
        return put_group(t, b, places, kept, list, stage, i, out, at, end);
    }
    if inside || tables::group_at(t, i) {
        return Ok(at);
    }
    put_field(t, b, places, kept, list, stage, i, out, at, end)
}

// The new record, to the front of out.
pub fn put_record(
    t: &[u8],
    b: &[u8],
    places: &[u16; DIRECTORY],
    kept: &[Index],
    list: &[u16],
    stage: &[u8],
    out: &mut [u8],
) -> Result<usize, Refusal>
    requires { Valid t.now × HasBoth (entries_of t.now) b.now places.now kept.now list.now stage.now × (length out.old ≡ longest_new_record) }
    ensures { Puts (entries_of t.now) b.now places.now kept.now list.now stage.now (record_added (entries_of t.now)) 0 longest_new_record out.old out.new result }
{
    let end = out.len();
    let mut p = records::heads::put_head(out);
    let mut inside = false;
    for i in 0..tables::count(t) {
        inside = records::inside_next(t, i, inside);
        p = put_entry(t, b, places, kept, list, stage, i, inside, out, p, end)?;
    }
    Ok(p)
}
