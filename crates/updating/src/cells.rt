// A cell of the new record: each value takes what is assigned to it, or stays as it was, or is null.
ghost use Rattle.std.specs.Prelude.{◌≡◌, true, false, List, ℕ, ◌-◌, ◌≤◌, ◌<◌, length, Some};
ghost use Rattle.std.proofs.Math.Option.{Option};
ghost use Rattle.rules.specs.Outcome.{done};
ghost use Rattle.rules.specs.Limits.{highest_index, greatest_count};
ghost use Rattle.rules.specs.Lists.{Bytes};
ghost use Rattle.rules.specs.Values as Rules;
ghost use Rattle.rules.specs.Values.{allowed};
ghost use Rattle.rules.specs.Record.{count_bytes};
ghost use Rattle.value_formats.specs.Formats.{format_at};
ghost use Rattle.tables.specs.Entries.{Valid, entries_of, is_group, is_multiple, what_at};
ghost use Rattle.tables.specs.Groups.{field_at};
ghost use Rattle.filling.specs.Filling.{Roomy, Filling, in_room};
ghost use Rattle.updating.specs.Laid.{cell_laid};
ghost use Rattle.updating.specs.New.{PutsCell, Was, Stands, taken, Had, Old, CanPutCell, HasNotes, HasOld, PutsValues};

use rules::Refusal;
use uses::Index;
use value_formats::Format;

// The values of an MU field that stand one after the other from a place on.
#[derive(Clone, Copy)]
pub struct Run {
    pub from: usize,
    pub count: usize,
}

// A count, in room.
pub fn put_count(n: usize, out: &mut [u8], at: usize, end: usize) -> Result<usize, Refusal>
    requires { (n ≤ greatest_count) × Roomy at end out.old }
    ensures { Filling (in_room (end - at) (done (count_bytes n))) at true out.old out.new result }
{
    if end - at < rules::COUNT_SIZE {
        return Err(Refusal::BeyondBuffer);
    }
    Ok(records::counts::put_count(n, out, at))
}

// A value of a standard length that stands at a place.
fn put_stored(
    s: &[u8],
    from: usize,
    size: usize,
    out: &mut [u8],
    at: usize,
    end: usize,
) -> Result<usize, Refusal>
    requires { ((f : Rules.Format) × (v : Bytes) × Was s.now f size v (Some from)) × Roomy at end out.old }
    ensures { (f : Rules.Format) (v : Bytes) → Was s.now f size v (Some from) → Filling (in_room (end - at) (done v)) at true out.old out.new result }
{
    let upto = records::skip::values_end(s, from, 1, size);
    filling::put_bytes(&s[from..upto], out, at, end, true)
}

// A value as it was.
fn put_old(
    b: &[u8],
    cell: Option<usize>,
    format: Format,
    size: usize,
    out: &mut [u8],
    at: usize,
    end: usize,
) -> Result<usize, Refusal>
    requires { (allowed (format_at format) size ≡ true) × ((v : Bytes) × Was b.now (format_at format) size v cell) × Roomy at end out.old }
    ensures { (v : Bytes) → Was b.now (format_at format) size v cell → Filling (in_room (end - at) (done v)) at true out.old out.new result }
{
    match cell {
        Some(from) => put_stored(b, from, size, out, at, end),
        None => filling::put_nulls(1, format, size, out, at, end, true),
    }
}

// A value that takes what stands on the stage, by one above its place, or stays as it was.
fn put_value(
    b: &[u8],
    stage: &[u8],
    staged: usize,
    cell: Option<usize>,
    format: Format,
    size: usize,
    out: &mut [u8],
    at: usize,
    end: usize,
) -> Result<usize, Refusal>
    requires { (allowed (format_at format) size ≡ true) × ((o : Option Bytes) × Stands stage.now (format_at format) size o staged) × ((v : Bytes) × Was b.now (format_at format) size v cell) × Roomy at end out.old }
    ensures { (o : Option Bytes) (v : Bytes) → Stands stage.now (format_at format) size o staged → Was b.now (format_at format) size v cell → Filling (in_room (end - at) (done (taken o v))) at true out.old out.new result }
{
    if 0 < staged {
        return put_stored(stage, staged - 1, size, out, at, end);
    }
    put_old(b, cell, format, size, out, at, end)
}

// Values 1 to n of an MU field, by where what each takes stands and the old values.
fn put_values(
    b: &[u8],
    stage: &[u8],
    by: &[u16; assignments::VALUES],
    old: Run,
    n: usize,
    format: Format,
    size: usize,
    out: &mut [u8],
    at: usize,
    end: usize,
) -> Result<usize, Refusal>
    requires { (allowed (format_at format) size ≡ true) × (n ≤ highest_index) × HasNotes stage.now (format_at format) size by.now × HasOld b.now (format_at format) size old × Roomy at end out.old }
    ensures { PutsValues b.now stage.now by.now old (format_at format) size n at end out.old out.new result }
{
    let mut q = old.from;
    let mut p = at;
    for k in 1..=n {
        let exists = k <= old.count;
        let cell = if exists { Some(q) } else { None };
        let staged = usize::from(by[k]);
        p = put_value(b, stage, staged, cell, format, size, out, p, end)?;
        if exists {
            q = records::skip::values_end(b, q, 1, size);
        }
    }
    Ok(p)
}

// The old values of an MU field.
fn old_values(b: &[u8], cell: Option<usize>) -> Run
    requires { (f : Rules.Format) × (n : ℕ) × (vs : List Bytes) × Had b.now f n vs cell }
    ensures { (f : Rules.Format) (n : ℕ) (vs : List Bytes) → Had b.now f n vs cell → Old b.now f n vs result }
{
    match cell {
        Some(q) => Run {
            from: records::counts::after_count(b, q),
            count: records::counts::count_at(b, q),
        },
        None => Run { from: 0, count: 0 },
    }
}

// The cell of entry i, an MU field, in occurrence o: by bare names only its count is the number of names, else the larger of the old
// count and the highest value named.
fn put_counted(
    t: &[u8],
    b: &[u8],
    kept: &[Index],
    list: &[u16],
    stage: &[u8],
    i: usize,
    o: usize,
    cell: Option<usize>,
    out: &mut [u8],
    at: usize,
    end: usize,
) -> Result<usize, Refusal>
    requires { Valid t.now × (i < length (entries_of t.now)) × (is_multiple (what_at (entries_of t.now) i) ≡ true) × CanPutCell (entries_of t.now) b.now kept.now list.now stage.now i o cell at end out.old }
    ensures { PutsCell (entries_of t.now) b.now kept.now list.now stage.now i o cell (λ w. cell_laid w o (field_at (entries_of t.now) i)) at end out.old out.new result }
{
    let format = tables::field_format(t, i);
    let size = tables::size_at(t, i);
    let old = old_values(b, cell);
    let mut by = [0u16; assignments::VALUES];
    let named = assignments::named(kept, list, stage, i, o, size, &mut by);
    let n = if named.bare {
        named.highest
    } else {
        old.count.max(named.highest)
    };
    let p = put_count(n, out, at, end)?;
    put_values(b, stage, &by, old, n, format, size, out, p, end)
}

// The cell of entry i, a field that is not MU, in occurrence o.
fn put_plain(
    t: &[u8],
    b: &[u8],
    kept: &[Index],
    list: &[u16],
    stage: &[u8],
    i: usize,
    o: usize,
    cell: Option<usize>,
    out: &mut [u8],
    at: usize,
    end: usize,
) -> Result<usize, Refusal>
    requires { Valid t.now × (i < length (entries_of t.now)) × (is_group (what_at (entries_of t.now) i) ≡ false) × (is_multiple (what_at (entries_of t.now) i) ≡ false) × CanPutCell (entries_of t.now) b.now kept.now list.now stage.now i o cell at end out.old }
    ensures { PutsCell (entries_of t.now) b.now kept.now list.now stage.now i o cell (λ w. cell_laid w o (field_at (entries_of t.now) i)) at end out.old out.new result }
{
    let size = tables::size_at(t, i);
    let staged = assignments::assigned(t, kept, list, stage, i, o);
    if 0 < staged {
        return put_stored(stage, staged - 1, size, out, at, end);
    }
    put_old(b, cell, tables::field_format(t, i), size, out, at, end)
}

// The cell of entry i, a field, in occurrence o.
pub fn put_cell(
    t: &[u8],
    b: &[u8],
    kept: &[Index],
    list: &[u16],
    stage: &[u8],
    i: usize,
    o: usize,
    cell: Option<usize>,
    out: &mut [u8],
    at: usize,
    end: usize,
) -> Result<usize, Refusal>
    requires { Valid t.now × (i < length (entries_of t.now)) × (is_group (what_at (entries_of t.now) i) ≡ false) × CanPutCell (entries_of t.now) b.now kept.now list.now stage.now i o cell at end out.old }
    ensures { PutsCell (entries_of t.now) b.now kept.now list.now stage.now i o cell (λ w. cell_laid w o (field_at (entries_of t.now) i)) at end out.old out.new result }
{
    if tables::multiple_at(t, i) {
        return put_counted(t, b, kept, list, stage, i, o, cell, out, at, end);
    }
    put_plain(t, b, kept, list, stage, i, o, cell, out, at, end)
}
