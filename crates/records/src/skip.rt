// Skips stored data that is known to be right: each function has the name of the one in `walk` that tests it too.
ghost use Rattle.std.specs.Prelude.{◌≤◌, ◌<◌, length, drop, get_or};
ghost use Rattle.rules.specs.Values.{Format};
ghost use Rattle.rules.specs.Record.{times, each, counted, stored_value, stored_cell};
ghost use Rattle.tables.specs.Entries.{Valid, entries_of, blank, what_at};
ghost use Rattle.records.specs.Where.{field_of};
ghost use Rattle.records.specs.Walk.{rest_of, Ends, EndsAt, members_among};

use crate::counts;

// The place after n values of a standard length.
pub fn values_end(b: &[u8], at: usize, n: usize, size: usize) -> usize
    requires { (at ≤ length b.now) × ((f : Format) × Ends (rest_of (times n (stored_value f size) (drop at b.now)))) }
    ensures { (f : Format) → EndsAt b.now (rest_of (times n (stored_value f size) (drop at b.now))) result }
{
    if 0 < size {
        return at + n * size;
    }
    let mut p = at;
    for _i in 0..n {
        p += usize::from(b[p]);
    }
    p
}

// The place after the cell of a field, by its standard length and whether it is MU.
fn cell_end(b: &[u8], at: usize, size: usize, multiple: bool) -> usize
    requires { (at ≤ length b.now) × ((f : Format) × Ends (rest_of (counted multiple (stored_value f size) (drop at b.now)))) }
    ensures { (f : Format) → EndsAt b.now (rest_of (counted multiple (stored_value f size) (drop at b.now))) result }
{
    if multiple {
        let n = counts::count_at(b, at);
        return values_end(b, counts::after_count(b, at), n, size);
    }
    values_end(b, at, 1, size)
}

// The place after the cell of entry i, where it is a field; a group by itself has no bytes.
fn member_end(t: &[u8], b: &[u8], at: usize, i: usize) -> usize
    requires { Valid t.now × (i < length (entries_of t.now)) × (at ≤ length b.now) × Ends (rest_of (each stored_cell (field_of (get_or (entries_of t.now) i blank).name (what_at (entries_of t.now) i)) (drop at b.now))) }
    ensures { EndsAt b.now (rest_of (each stored_cell (field_of (get_or (entries_of t.now) i blank).name (what_at (entries_of t.now) i)) (drop at b.now))) result }
{
    if tables::group_at(t, i) {
        return at;
    }
    cell_end(b, at, tables::size_at(t, i), tables::multiple_at(t, i))
}

// The place after the cells of the fields among the entries from first to end, once each.
#[tactic(auto, using(crate::proofs::Turns::among_steps))]
pub fn members_end(t: &[u8], b: &[u8], at: usize, first: usize, end: usize) -> usize
    requires { Valid t.now × (first ≤ end) × (end ≤ length (entries_of t.now)) × (at ≤ length b.now) × Ends (rest_of (members_among (entries_of t.now) first end (drop at b.now))) }
    ensures { EndsAt b.now (rest_of (members_among (entries_of t.now) first end (drop at b.now))) result }
{
    let mut p = at;
    for i in first..end {
        p = member_end(t, b, p, i);
    }
    p
}

// The same n times.
#[tactic(auto, using(crate::proofs::Turns::repeat_steps))]
pub fn occurrences_end(t: &[u8], b: &[u8], at: usize, n: usize, first: usize, end: usize) -> usize
    requires { Valid t.now × (first ≤ end) × (end ≤ length (entries_of t.now)) × (at ≤ length b.now) × Ends (rest_of (times n (members_among (entries_of t.now) first end) (drop at b.now))) }
    ensures { EndsAt b.now (rest_of (times n (members_among (entries_of t.now) first end) (drop at b.now))) result }
{
    let mut p = at;
    for _i in 0..n {
        p = members_end(t, b, p, first, end);
    }
    p
}
