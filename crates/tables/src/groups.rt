// Groups by their members: where they end, their fields, and whether one can be named; and series.
ghost use Rattle.std.specs.Prelude.{◌≡◌, ◌<◌, ◌≤◌, ◌+◌, length, get_or, drop};
ghost use Rattle.rules.specs.Limits.{most_entries};
ghost use Rattle.rules.specs.Lists.{all};
ghost use Rattle.rules.specs.Table.{fields_below};
ghost use Rattle.rules.specs.Use.{plain};
ghost use Rattle.tables.specs.Entries.{Valid, entries_of, decoded, blank};
ghost use Rattle.tables.specs.Groups.{group_end, Expanded, FieldsOf, plain_entry, Spanned};

use crate::entries;

// The number of the first entry after the members of entry i.
#[tactic(auto, using(crate::proofs::Nesting::run_steps))]
pub fn group_end(t: &[u8], i: usize) -> usize
    requires { Valid t.now × (i < length (entries_of t.now)) }
    ensures { result ≡ group_end (entries_of t.now) i }
{
    let n = entries::count(t);
    let level = entries::level_at(t, i);
    for j in i + 1..n {
        if entries::level_at(t, j) <= level {
            return j;
        }
    }
    n
}

// How far a walk over entries has come: the next entry, and how many fields were written.
#[derive(Clone, Copy)]
struct Expansion {
    next: usize,
    count: usize,
}

// Writes the numbers of the fields among the entries at and after `at` that are deeper than level, a group's members by a call of its own.
#[tactic(auto, using(crate::proofs::Walks::walk_bounds))]
fn expand_from(
    t: &[u8],
    at: usize,
    n: usize,
    level: u8,
    out: &mut [u8; rules::MOST_ENTRIES],
    count: usize,
) -> Expansion
    requires { Valid t.now × (n ≡ length (entries_of t.now)) × (at ≤ n) × (count ≤ at) × (length out.old ≡ most_entries) }
    ensures { Expanded (entries_of t.now) level at count out.old out.new result }
{
    if at == n {
        return Expansion { next: n, count };
    }
    let deep = entries::level_at(t, at);
    if deep <= level {
        return Expansion { next: at, count };
    }
    if entries::group_at(t, at) {
        let inner = expand_from(t, at + 1, n, deep, out, count);
        return expand_from(t, inner.next, n, level, out, inner.count);
    }
    out[count] = at as u8;
    expand_from(t, at + 1, n, level, out, count + 1)
}

// Writes the entry numbers of the fields of group i, in table order; how many there are.
#[tactic(auto, using(crate::proofs::Tables::valid_most, crate::proofs::Walks::expanded))]
pub fn expand(t: &[u8], i: usize, out: &mut [u8; rules::MOST_ENTRIES]) -> usize
    requires { Valid t.now × (i < length (entries_of t.now)) × (length out.old ≡ most_entries) }
    ensures { FieldsOf (entries_of t.now) i out.old out.new result }
{
    let level = entries::level_at(t, i);
    expand_from(t, i + 1, entries::count(t), level, out, 0).count
}

// Whether entry i can stand in a group that is named.
#[tactic(auto, using(crate::proofs::Tables::is_group_coded), unfolding(crate::specs::Groups::plain_entry))]
fn plain_at(t: &[u8], i: usize) -> bool
    requires { Valid t.now × (i < length (entries_of t.now)) }
    ensures { result ≡ plain_entry (decoded (get_or (entries_of t.now) i blank)) }
{
    entries::group_at(t, i) || !entries::multiple_at(t, i) && 1 <= entries::size_at(t, i)
}

// Whether group i can be named: it has neither an MU field nor one of variable length.
#[tactic(auto, using(crate::proofs::Plains::plain_steps))]
pub fn plain_group(t: &[u8], i: usize) -> bool
    requires { Valid t.now × (i < length (entries_of t.now)) }
    ensures { result ≡ all plain (fields_below (get_or (entries_of t.now) i blank).level (drop (i + 1) (entries_of t.now))) }
{
    let n = entries::count(t);
    let level = entries::level_at(t, i);
    for j in i + 1..n {
        if entries::level_at(t, j) <= level {
            return true;
        }
        if !plain_at(t, j) {
            return false;
        }
    }
    true
}

// Whether the entries from i to j can be a series: no MU field, no periodic group, and j a field not before i.
#[tactic(auto, using(crate::proofs::Tables::valid_names, crate::proofs::Serial::series_steps))]
pub fn series(t: &[u8], i: usize, j: usize) -> bool
    requires { Valid t.now × (i < length (entries_of t.now)) × (j < length (entries_of t.now)) }
    ensures { Spanned (entries_of t.now) i j result }
{
    for k in i..entries::count(t) {
        if entries::multiple_at(t, k) || entries::periodic_at(t, k) {
            return false;
        }
        if k == j {
            return !entries::group_at(t, k);
        }
    }
    false
}
