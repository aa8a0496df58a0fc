// Whether a slice is a stored record (refusal 2), and where each entry's bytes begin.
ghost use Rattle.std.specs.Prelude.{◌≡◌, true, ◌+◌, ◌≤◌, ◌<◌, length, drop, get_or, set};
ghost use Rattle.std.proofs.Math.Seq.{slice};
ghost use Rattle.rules.specs.Limits.{longest_record};
ghost use Rattle.rules.specs.Lists.{cut};
ghost use Rattle.rules.specs.Values.{allowed};
ghost use Rattle.rules.specs.Record.{times, each, counted, stored_value, stored_cell};
ghost use Rattle.tables.specs.Entries.{Valid, entries_of, blank, format_at, what_at};
ghost use Rattle.records.specs.Where.{field_of};
ghost use Rattle.records.specs.Counts.{count_at, greatest_byte};
ghost use Rattle.records.specs.Walk.{directory, rest_of, Walked, occurrences_counted, Keeps, Checked, greatest_kept, members_among, WalksEntry};

use crate::{DIRECTORY, FIRSTS, KEPT, counts, heads};
use value_formats::Format;

// The place after a value of a format and standard length.
fn value_end(b: &[u8], at: usize, format: Format, size: usize) -> Option<usize>
    requires { (at ≤ length b.now) × (allowed (format_at format) size ≡ true) }
    ensures { Walked b.now (rest_of (stored_value (format_at format) size (drop at b.now))) result }
{
    let (from, next) = values::first_value(b, at, size).ok()?;
    values::is_normal(&b[from..next], format, size).then_some(next)
}

// The place after n bytes.
#[tactic(auto, using(crate::proofs::Ends::cut_steps))]
fn bytes_end(b: &[u8], at: usize, n: usize) -> Option<usize>
    requires { at ≤ length b.now }
    ensures { Walked b.now (rest_of (cut 2 n (drop at b.now))) result }
{
    if b.len() - at < n {
        return None;
    }
    Some(at + n)
}

// The place after n values. Where all bytes are in normal form, they are n times the length in bytes; an n that no count can say goes one by one,
// so that the product is never too large.
fn values_end(b: &[u8], at: usize, n: usize, format: Format, size: usize) -> Option<usize>
    requires { (at ≤ length b.now) × (allowed (format_at format) size ≡ true) }
    ensures { Walked b.now (rest_of (times n (stored_value (format_at format) size) (drop at b.now))) result }
{
    if n <= rules::GREATEST_COUNT && values::any_bytes(format, size) {
        return bytes_end(b, at, n * size);
    }
    let mut p = at;
    for _i in 0..n {
        p = value_end(b, p, format, size)?;
    }
    Some(p)
}

// The place after the cell of a field, by its format, standard length and whether it is MU.
#[tactic(auto, using(std::proofs::lemmas::Bool::Decides::nat_tests), unfolding(crate::specs::Counts::has_count))]
fn cell_end(b: &[u8], at: usize, format: Format, size: usize, multiple: bool) -> Option<usize>
    requires { (at ≤ length b.now) × (allowed (format_at format) size ≡ true) }
    ensures { Walked b.now (rest_of (counted multiple (stored_value (format_at format) size) (drop at b.now))) result }
{
    if !multiple {
        return value_end(b, at, format, size);
    }
    if !counts::has_count(b, at) {
        return None;
    }
    let n = counts::count_at(b, at);
    values_end(b, counts::after_count(b, at), n, format, size)
}

// The place after the cell of entry i, where it is a field; a group by itself has no bytes.
fn member_end(t: &[u8], b: &[u8], at: usize, i: usize) -> Option<usize>
    requires { Valid t.now × (i < length (entries_of t.now)) × (at ≤ length b.now) }
    ensures { Walked b.now (rest_of (each stored_cell (field_of (get_or (entries_of t.now) i blank).name (what_at (entries_of t.now) i)) (drop at b.now))) result }
{
    let e = tables::entry_at(t, i);
    match e.format {
        None => Some(at),
        Some(format) => cell_end(b, at, format, usize::from(e.size), e.multiple),
    }
}

// The place after the cells of the fields among the entries from first to end, once each.
#[tactic(auto, using(crate::proofs::Turns::among_steps))]
fn members_end(t: &[u8], b: &[u8], at: usize, first: usize, end: usize) -> Option<usize>
    requires { Valid t.now × (first ≤ end) × (end ≤ length (entries_of t.now)) × (at ≤ length b.now) }
    ensures { Walked b.now (rest_of (members_among (entries_of t.now) first end (drop at b.now))) result }
{
    let mut p = at;
    for i in first..end {
        p = member_end(t, b, p, i)?;
    }
    Some(p)
}

// Keeps a place at a number of the directory, if the directory is as long.
#[tactic(auto, using(crate::proofs::Turns::set_beyond))]
fn keep(places: &mut [u16; DIRECTORY], number: usize, place: usize)
    requires { (length places.old ≡ directory) × (place ≤ greatest_kept) }
    ensures { places.new ≡ set places.old number place }
{
    if number < DIRECTORY {
        places[number] = place as u16;
    }
}

// The same n times; where each time begins is kept from a number of the directory on.
fn occurrences_end(
    t: &[u8],
    b: &[u8],
    at: usize,
    n: usize,
    first: usize,
    end: usize,
    places: &mut [u16; DIRECTORY],
    kept: usize,
) -> Option<usize>
    requires { Valid t.now × (first ≤ end) × (end ≤ length (entries_of t.now)) × (at ≤ length b.now) × (length b.now ≤ longest_record) × (length places.old ≡ directory) × (kept + n ≤ greatest_kept) }
    ensures { Walked b.now (rest_of (times n (members_among (entries_of t.now) first end) (drop at b.now))) result × Keeps (members_among (entries_of t.now) first end) b.now at n kept places.old places.new result }
{
    let mut p = at;
    for i in 0..n {
        keep(places, kept + i, p);
        p = members_end(t, b, p, first, end)?;
    }
    Some(p)
}

// The place after the part that entry i begins, if it begins one.
#[tactic(auto, using(crate::proofs::Ends::entry_bounds), unfolding(crate::specs::Counts::has_count))]
fn entry_end(
    t: &[u8],
    b: &[u8],
    at: usize,
    i: usize,
    inside: bool,
    places: &mut [u16; DIRECTORY],
    kept: usize,
) -> Option<usize>
    requires { Valid t.now × (i < length (entries_of t.now)) × (at ≤ length b.now) × (length b.now ≤ longest_record) × (length places.old ≡ directory) × (kept + greatest_byte ≤ greatest_kept) }
    ensures { WalksEntry (entries_of t.now) b.now inside i at kept places.old places.new result }
{
    if !tables::periodic_at(t, i) {
        return if inside {
            Some(at)
        } else {
            member_end(t, b, at, i)
        };
    }
    if !counts::has_count(b, at) {
        return None;
    }
    let n = counts::count_at(b, at);
    let from = counts::after_count(b, at);
    let end = tables::group_end(t, i);
    occurrences_end(t, b, from, n, i + 1, end, places, kept)
}

// The number after those of entry i's occurrences.
#[tactic(auto, using(crate::proofs::Ends::kept_steps))]
fn kept_after(t: &[u8], b: &[u8], at: usize, i: usize, kept: usize) -> usize
    requires { Valid t.now × (i < length (entries_of t.now)) × (kept + greatest_byte ≤ greatest_kept) }
    ensures { (result ≡ kept + occurrences_counted (what_at (entries_of t.now) i) (count_at b.now at)) × (result ≤ kept + greatest_byte) }
{
    if at < b.len() && tables::periodic_at(t, i) {
        return kept + counts::count_at(b, at);
    }
    kept
}

// Whether a slice is a record, and then its directory.
#[tactic(auto, using(crate::proofs::Directories::check_bounds))]
pub fn check(t: &[u8], b: &[u8], places: &mut [u16; DIRECTORY]) -> bool
    requires { Valid t.now × (length places.old ≡ directory) }
    ensures { Checked (entries_of t.now) b.now places.new result }
{
    if !heads::has_head(b) {
        return false;
    }
    let mut inside = false;
    let mut p = rules::RECORD_HEAD_SIZE;
    let mut kept = KEPT;
    for i in 0..tables::count(t) {
        keep(places, i, p);
        keep(places, FIRSTS + i, kept);
        inside = crate::inside_next(t, i, inside);
        let Some(next) = entry_end(t, b, p, i, inside, places, kept) else {
            return false;
        };
        kept = kept_after(t, b, p, i, kept);
        p = next;
    }
    p == b.len()
}
