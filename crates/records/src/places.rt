// Where the values of a stored record lie.
#![tactic(auto, using(tables::proofs::Tables::valid_most))]

ghost use Rattle.std.specs.Prelude.{◌≡◌, true, false, List, ℕ, ◌+◌, ◌-◌, ◌≤◌, ◌<◌, length, drop, get_or, Some};
ghost use Rattle.rules.specs.Limits.{record_head_size, count_size};
ghost use Rattle.rules.specs.Table.{group, parts};
ghost use Rattle.rules.specs.Record.{Record, times, group_count_at, value_count_at};
ghost use Rattle.tables.specs.Entries.{Valid, entries_of, blank, is_group, is_multiple, what_at};
ghost use Rattle.tables.specs.Places.{inside_at};
ghost use Rattle.records.specs.Places.{IsRecord, HasRecord, Entered, MemberEntered, CellOf, Outside, PieceOf, OccurrencesOf, LeadsInside, HasOccurrences, OneOutside};
ghost use Rattle.records.specs.Counts.{count_at, greatest_byte};
ghost use Rattle.records.specs.Walk.{directory, rest_of, Walked, Ends, start_of, occurrence, greatest_kept, members_among};
ghost use Rattle.records.specs.Paths.{Leads};

use crate::paths::Path;
use crate::{DIRECTORY, FIRSTS, counts, paths, skip};

// The place of entry i's part.
fn place_of(places: &[u16; DIRECTORY], i: usize) -> usize
    requires { i < directory }
    ensures { (result ≡ get_or places.now i 0) × (result ≤ greatest_kept) }
{
    usize::from(places[i])
}

// The count of the periodic group that entry g is.
pub fn group_count(t: &[u8], b: &[u8], places: &[u16; DIRECTORY], g: usize) -> usize
    requires { Valid t.now × (g < length (entries_of t.now)) × (what_at (entries_of t.now) g ≡ group true) × HasRecord (entries_of t.now) b.now places.now }
    ensures { (result ≤ greatest_byte) × ((r : Record) → IsRecord (entries_of t.now) b.now places.now r → result ≡ group_count_at (parts (entries_of t.now)) r (get_or (entries_of t.now) g blank).name) }
{
    counts::count_at(b, place_of(places, g))
}

// The place of occurrence o of the periodic group that entry g is: as it is kept, or after those before it.
fn occurrence_at(t: &[u8], b: &[u8], places: &[u16; DIRECTORY], g: usize, o: usize) -> usize
    requires { Valid t.now × (g < length (entries_of t.now)) × (what_at (entries_of t.now) g ≡ group true) × (1 ≤ o) × (o ≤ count_at b.now (get_or places.now g 0)) × HasRecord (entries_of t.now) b.now places.now }
    ensures { Walked b.now (rest_of (times (o - 1) (occurrence (entries_of t.now) g) (drop (get_or places.now g 0 + count_size) b.now))) (Some result) }
{
    let number = place_of(places, FIRSTS + g) + (o - 1);
    if number < DIRECTORY {
        return place_of(places, number);
    }
    let from = counts::after_count(b, place_of(places, g));
    let end = tables::group_end(t, g);
    skip::occurrences_end(t, b, from, o - 1, g + 1, end)
}

// The place of an entry in the occurrence that stands at a place: after the fields before it there.
fn place_in(t: &[u8], b: &[u8], path: Path, row: usize) -> usize
    requires { Valid t.now × (path.group < path.entry) × (path.entry ≤ length (entries_of t.now)) × Leads (entries_of t.now) path × (row ≤ length b.now) × Ends (rest_of (members_among (entries_of t.now) (path.group + 1) path.entry (drop row b.now))) }
    ensures { Walked b.now (rest_of (members_among (entries_of t.now) (path.group + 1) path.entry (drop row b.now))) (Some result) }
{
    if path.fixed {
        return row + path.offset;
    }
    skip::members_end(t, b, row, path.group + 1, path.entry)
}

// The place of an entry in an occurrence of the periodic group that it lies in.
fn entry_in(t: &[u8], b: &[u8], places: &[u16; DIRECTORY], path: Path, o: usize) -> Option<usize>
    requires { Valid t.now × (path.group < path.entry) × (path.entry < length (entries_of t.now)) × (1 ≤ o) × Leads (entries_of t.now) path × (path.inside ≡ true) × HasRecord (entries_of t.now) b.now places.now }
    ensures { (r : Record) → IsRecord (entries_of t.now) b.now places.now r → Entered (entries_of t.now) b.now places.now path.group path.entry o r result }
{
    let g = path.group;
    if group_count(t, b, places, g) < o {
        return None;
    }
    let row = occurrence_at(t, b, places, g, o);
    Some(place_in(t, b, path, row))
}

// Where occurrence o of the periodic group that entry g is begins, which is where the cell of its first member would stand.
pub fn first_cell(
    t: &[u8],
    b: &[u8],
    places: &[u16; DIRECTORY],
    g: usize,
    o: usize,
) -> Option<usize>
    requires { Valid t.now × (g < length (entries_of t.now)) × (what_at (entries_of t.now) g ≡ group true) × (1 ≤ o) × HasRecord (entries_of t.now) b.now places.now }
    ensures { (r : Record) → IsRecord (entries_of t.now) b.now places.now r → Entered (entries_of t.now) b.now places.now g (g + 1) o r result }
{
    if group_count(t, b, places, g) < o {
        return None;
    }
    Some(occurrence_at(t, b, places, g, o))
}

// Where the cell after that of entry i stands in the same occurrence.
pub fn next_cell(t: &[u8], b: &[u8], i: usize, cell: Option<usize>) -> Option<usize>
    requires { Valid t.now × (i < length (entries_of t.now)) × ((places : List ℕ) × (g : ℕ) × (o : ℕ) × (r : Record) × MemberEntered (entries_of t.now) b.now places g i o r cell) }
    ensures { (places : List ℕ) (g o : ℕ) (r : Record) → MemberEntered (entries_of t.now) b.now places g i o r cell → Entered (entries_of t.now) b.now places g (i + 1) o r result }
{
    let from = cell?;
    Some(skip::members_end(t, b, from, i, i + 1))
}

// The cell of entry i, a field outside periodic groups.
pub fn outside_cell(t: &[u8], b: &[u8], places: &[u16; DIRECTORY], i: usize) -> Option<usize>
    requires { Valid t.now × (i < length (entries_of t.now)) × (is_group (what_at (entries_of t.now) i) ≡ false) × (inside_at (entries_of t.now) i ≡ false) }
    ensures { (r : Record) → IsRecord (entries_of t.now) b.now places.now r → CellOf (entries_of t.now) b.now i 1 r result }
{
    Some(place_of(places, i))
}

// The cell of a field in occurrence o, by the way to it; outside periodic groups there is occurrence 1.
pub fn cell_by(t: &[u8], b: &[u8], places: &[u16; DIRECTORY], path: Path, o: usize) -> Option<usize>
    requires { Valid t.now × (path.entry < length (entries_of t.now)) × (is_group (what_at (entries_of t.now) path.entry) ≡ false) × (1 ≤ o) × OneOutside (entries_of t.now) path.entry o × Leads (entries_of t.now) path × HasRecord (entries_of t.now) b.now places.now }
    ensures { (r : Record) → IsRecord (entries_of t.now) b.now places.now r → CellOf (entries_of t.now) b.now path.entry o r result }
{
    if path.inside {
        return entry_in(t, b, places, path, o);
    }
    Some(place_of(places, path.entry))
}

// The cell of entry i, a field, in occurrence o.
pub fn cell_at(t: &[u8], b: &[u8], places: &[u16; DIRECTORY], i: usize, o: usize) -> Option<usize>
    requires { Valid t.now × (i < length (entries_of t.now)) × (is_group (what_at (entries_of t.now) i) ≡ false) × (1 ≤ o) × OneOutside (entries_of t.now) i o × HasRecord (entries_of t.now) b.now places.now }
    ensures { (r : Record) → IsRecord (entries_of t.now) b.now places.now r → CellOf (entries_of t.now) b.now i o r result }
{
    cell_by(t, b, places, paths::path_to(t, i), o)
}

// The count of entry i, an MU field, in occurrence o: 0 where there is no such occurrence.
pub fn value_count(t: &[u8], b: &[u8], places: &[u16; DIRECTORY], i: usize, o: usize) -> usize
    requires { Valid t.now × (i < length (entries_of t.now)) × (is_multiple (what_at (entries_of t.now) i) ≡ true) × (1 ≤ o) × OneOutside (entries_of t.now) i o × HasRecord (entries_of t.now) b.now places.now }
    ensures { (result ≤ greatest_byte) × ((r : Record) → IsRecord (entries_of t.now) b.now places.now r → result ≡ value_count_at (parts (entries_of t.now)) r (get_or (entries_of t.now) i blank).name o) }
{
    match cell_at(t, b, places, i, o) {
        Some(p) => counts::count_at(b, p),
        None => 0,
    }
}

// The place after the parts of the entries before entry i.
pub fn part_start(t: &[u8], b: &[u8], places: &[u16; DIRECTORY], i: usize) -> usize
    requires { Valid t.now × (i ≤ length (entries_of t.now)) × HasRecord (entries_of t.now) b.now places.now }
    ensures { (result ≤ length b.now) × (drop result b.now ≡ start_of false (entries_of t.now) (drop record_head_size b.now) i) }
{
    if i < tables::count(t) {
        return place_of(places, i);
    }
    b.len()
}

// Where the fields among the entries from first to end stand, all outside periodic groups and none MU.
pub fn piece_outside(
    t: &[u8],
    b: &[u8],
    places: &[u16; DIRECTORY],
    first: usize,
    end: usize,
) -> Option<(usize, usize)>
    requires { Valid t.now × (first ≤ end) × (end ≤ length (entries_of t.now)) × Outside (entries_of t.now) first end × HasRecord (entries_of t.now) b.now places.now }
    ensures { (r : Record) → IsRecord (entries_of t.now) b.now places.now r → PieceOf (entries_of t.now) b.now first end 1 r result }
{
    let from = part_start(t, b, places, first);
    Some((from, part_start(t, b, places, end)))
}

// The same of entries that all lie in the periodic group to which the way to the first leads, in occurrence o; their fields are of
// fixed length, and `width` bytes together.
pub fn piece_inside(
    t: &[u8],
    b: &[u8],
    places: &[u16; DIRECTORY],
    path: Path,
    end: usize,
    width: usize,
    o: usize,
) -> Option<(usize, usize)>
    requires { Valid t.now × (path.group < path.entry) × LeadsInside (entries_of t.now) b.now places.now path end width o }
    ensures { (r : Record) → IsRecord (entries_of t.now) b.now places.now r → PieceOf (entries_of t.now) b.now path.entry end o r result }
{
    let from = entry_in(t, b, places, path, o)?;
    Some((from, from + width))
}

// Where n occurrences of the periodic group that entry g is stand, from occurrence o on, all of which exist; its fields are of fixed
// length, and `width` bytes together.
pub fn occurrences_at(
    t: &[u8],
    b: &[u8],
    places: &[u16; DIRECTORY],
    g: usize,
    width: usize,
    o: usize,
    n: usize,
) -> usize
    requires { Valid t.now × (g < length (entries_of t.now)) × (what_at (entries_of t.now) g ≡ group true) × HasOccurrences (entries_of t.now) b.now places.now g width o n }
    ensures { (r : Record) → IsRecord (entries_of t.now) b.now places.now r → OccurrencesOf (entries_of t.now) b.now g o n width r result }
{
    occurrence_at(t, b, places, g, o)
}
