// How a field is reached in a record, as far as the table tells it.
ghost use Rattle.std.specs.Prelude.{◌≡◌, false, ◌≤◌, ◌<◌, ◌*◌, length, get_or};
ghost use Rattle.std.proofs.Math.Seq.{slice};
ghost use Rattle.tables.specs.Entries.{Valid, entries_of, blank, is_periodic, what_at};
ghost use Rattle.tables.specs.Places.{Home};
ghost use Rattle.records.specs.Where.{field_of};
ghost use Rattle.tables.specs.Groups.{fields_in};
ghost use Rattle.rules.specs.Limits.{most_entries};
ghost use Rattle.records.specs.Counts.{greatest_byte};
ghost use Rattle.records.specs.Paths.{Width, Leads};

// The way to an entry: whether it lies in a periodic group, and in which, whether all fields before it there have a fixed length and
// are not MU, and then how many bytes those are.
#[derive(Clone, Copy)]
pub struct Path {
    pub entry: usize,
    pub inside: bool,
    pub group: usize,
    pub fixed: bool,
    pub offset: usize,
}

// The bytes of entry i's cell, where they are always as many; a group by itself has none.
#[tactic(auto, using(crate::proofs::Widths::width_steps))]
fn width_at(t: &[u8], i: usize) -> Option<usize>
    requires { Valid t.now × (i < length (entries_of t.now)) }
    ensures { Width (field_of (get_or (entries_of t.now) i blank).name (what_at (entries_of t.now) i)) greatest_byte result }
{
    if tables::group_at(t, i) {
        return Some(0);
    }
    if tables::multiple_at(t, i) {
        return None;
    }
    let size = tables::size_at(t, i);
    if size == 0 {
        return None;
    }
    Some(size)
}

// The same of the fields among the entries from first to end together.
#[tactic(auto, using(tables::proofs::Tables::valid_most))]
pub fn width_of(t: &[u8], first: usize, end: usize) -> Option<usize>
    requires { Valid t.now × (first ≤ end) × (end ≤ length (entries_of t.now)) }
    ensures { Width (fields_in (slice first end (entries_of t.now))) (most_entries * greatest_byte) result }
{
    let mut w = 0;
    for i in first..end {
        w += width_at(t, i)?;
    }
    Some(w)
}

// The way to entry i, which lies in the periodic group that entry g is.
#[tactic(auto, using(tables::proofs::Tables::valid_most))]
fn path_in(t: &[u8], g: usize, i: usize) -> Path
    requires { Valid t.now × (i < length (entries_of t.now)) × (g < i) × Home (entries_of t.now) i g }
    ensures { (result.entry ≡ i) × Leads (entries_of t.now) result }
{
    let width = width_of(t, g + 1, i);
    Path {
        entry: i,
        inside: true,
        group: g,
        fixed: width.is_some(),
        offset: width.unwrap_or(0),
    }
}

// The way to entry i, which is no periodic group.
pub fn path_to(t: &[u8], i: usize) -> Path
    requires { Valid t.now × (i < length (entries_of t.now)) × (is_periodic (what_at (entries_of t.now) i) ≡ false) }
    ensures { (result.entry ≡ i) × Leads (entries_of t.now) result }
{
    match tables::periodic_group(t, i) {
        Some(g) => path_in(t, g, i),
        None => Path {
            entry: i,
            inside: false,
            group: 0,
            fixed: false,
            offset: 0,
        },
    }
}
