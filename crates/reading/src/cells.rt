// The values of one field in one occurrence: those that exist, at the format and length in effect, and nulls for the others.
ghost use Rattle.std.specs.Prelude.{◌≡◌, List, [], map, true, false, ◌+◌, ◌-◌, ◌≤◌, ◌<◌, length, Some};
ghost use Rattle.rules.specs.Limits.{highest_index};
ghost use Rattle.rules.specs.Lists.{Bytes};
ghost use Rattle.value_formats.specs.Formats.{format_at};
ghost use Rattle.tables.specs.Entries.{Valid, entries_of, is_group, what_at};
ghost use Rattle.filling.specs.Filling.{Roomy, Filling, together};
ghost use Rattle.format_buffer.specs.Elements.{range};
ghost use Rattle.reading.specs.Cells.{CellHolds, Wants, wanted_at, values_meant, converted_to, wanted, Stand, Exist};

use format_buffer::Scope;
use rules::Refusal;
use uses::scopes::{resolved_from, resolved_upto};
use value_formats::Format;

// What is wanted of a field: its values from first to last, by how far they reach, which are stored at its own format and standard length,
// at a format and a length in effect.
#[derive(Clone, Copy)]
pub struct Wanted {
    pub own: Format,
    pub standard: usize,
    pub multiple: bool,
    pub first: usize,
    pub last: usize,
    pub scope: Scope,
    pub format: Format,
    pub size: usize,
}

// Those of the values wanted that exist, which stand one after the other from a place on, and how many do not exist.
#[derive(Clone, Copy)]
pub struct ValueRun {
    pub at: usize,
    pub count: usize,
    pub missing: usize,
}

// None of the values meant, from first to last.
fn none_from(first: usize, last: usize) -> ValueRun
    requires { (first ≤ last + 1) × (last ≤ highest_index) }
    ensures { (w : Wanted) (b : Bytes) (vs : List Bytes) → range first last ≡ values_meant w (length vs) → length vs < first → Exist w b vs result }
{
    ValueRun {
        at: 0,
        count: 0,
        missing: last + 1 - first,
    }
}

// Where there is no cell, and so none of the values wanted.
fn none_of(w: Wanted) -> ValueRun
    requires { Wants w }
    ensures { (b : Bytes) → Exist w b [] result }
{
    let first = resolved_from(w.scope, w.first, w.last, 0);
    none_from(first, resolved_upto(w.scope, w.first, w.last, 0))
}

// What is wanted of entry i, a field.
pub fn wanted_of(
    t: &[u8],
    i: usize,
    first: usize,
    last: usize,
    scope: Scope,
    format: Format,
    size: usize,
) -> Wanted
    requires { Valid t.now × (i < length (entries_of t.now)) × (is_group (what_at (entries_of t.now) i) ≡ false) }
    ensures { result ≡ wanted_at (entries_of t.now) i first last scope format size }
{
    Wanted {
        own: tables::field_format(t, i),
        standard: tables::size_at(t, i),
        multiple: tables::multiple_at(t, i),
        first,
        last,
        scope,
        format,
        size,
    }
}

// n values that stand one after the other, converted to the format and length in effect.
fn put_converted(
    b: &[u8],
    from: usize,
    n: usize,
    w: Wanted,
    out: &mut [u8],
    at: usize,
    end: usize,
    write: bool,
) -> Result<usize, Refusal>
    requires { Wants w × (from ≤ length b.now) × ((us : List Bytes) × Stand w b.now from n us) × Roomy at end out.old }
    ensures { (us : List Bytes) → Stand w b.now from n us → Filling (together (end - at) (map (converted_to w) us)) at write out.old out.new result }
{
    let mut p = at;
    let mut q = from;
    for _ in 0..n {
        // The values are known to stand there, so that this is no refusal.
        let (start, next) = values::first_value(b, q, w.standard)?;
        let s = &b[start..next];
        p = filling::value::put_value(s, w.own, w.format, w.size, out, p, end, write).map_err(
            |x| filling::lengths::with_needed(x, s, w.own, w.format),
        )?;
        q = next;
    }
    Ok(p)
}

// The values of a run, at the format and length in effect: at their own they are copied as they are stored.
fn put_run(
    b: &[u8],
    run: ValueRun,
    w: Wanted,
    out: &mut [u8],
    at: usize,
    end: usize,
    write: bool,
) -> Result<usize, Refusal>
    requires { Wants w × (run.at ≤ length b.now) × ((us : List Bytes) × Stand w b.now run.at run.count us) × Roomy at end out.old }
    ensures { (us : List Bytes) → Stand w b.now run.at run.count us → Filling (together (end - at) (map (converted_to w) us)) at write out.old out.new result }
{
    if w.own == w.format && w.standard == w.size {
        let upto = records::skip::values_end(b, run.at, run.count, w.standard);
        return filling::put_bytes(&b[run.at..upto], out, at, end, write);
    }
    put_converted(b, run.at, run.count, w, out, at, end, write)
}

// Those of the values wanted that exist, in the cell of an MU field.
fn run_among(b: &[u8], cell: usize, w: Wanted) -> ValueRun
    requires { Wants w × ((vs : List Bytes) × CellHolds b.now (format_at w.own) w.standard true vs (Some cell)) }
    ensures { (vs : List Bytes) → CellHolds b.now (format_at w.own) w.standard true vs (Some cell) → Exist w b.now vs result }
{
    let n = records::counts::count_at(b, cell);
    let first = resolved_from(w.scope, w.first, w.last, n);
    let last = resolved_upto(w.scope, w.first, w.last, n);
    if n < first {
        return none_from(first, last);
    }
    let from = records::counts::after_count(b, cell);
    let there = last.min(n);
    ValueRun {
        at: records::skip::values_end(b, from, first - 1, w.standard),
        count: there + 1 - first,
        missing: last - there,
    }
}

// The same in a cell that stands at a place.
fn run_at(b: &[u8], cell: usize, w: Wanted) -> ValueRun
    requires { Wants w × ((vs : List Bytes) × CellHolds b.now (format_at w.own) w.standard w.multiple vs (Some cell)) }
    ensures { (vs : List Bytes) → CellHolds b.now (format_at w.own) w.standard w.multiple vs (Some cell) → Exist w b.now vs result }
{
    if w.multiple {
        return run_among(b, cell, w);
    }
    if 1 < w.first {
        return none_from(w.first, w.last);
    }
    ValueRun {
        at: cell,
        count: 1,
        missing: w.last - 1,
    }
}

// The same in a cell, if there is one.
fn run_of(b: &[u8], cell: Option<usize>, w: Wanted) -> ValueRun
    requires { Wants w × ((vs : List Bytes) × CellHolds b.now (format_at w.own) w.standard w.multiple vs cell) }
    ensures { (vs : List Bytes) → CellHolds b.now (format_at w.own) w.standard w.multiple vs cell → Exist w b.now vs result }
{
    match cell {
        Some(p) => run_at(b, p, w),
        None => none_of(w),
    }
}

// What is wanted of a cell: the values that exist, and nulls for the others.
pub fn put_cell(
    b: &[u8],
    cell: Option<usize>,
    w: Wanted,
    out: &mut [u8],
    at: usize,
    end: usize,
    write: bool,
) -> Result<usize, Refusal>
    requires { Wants w × ((vs : List Bytes) × CellHolds b.now (format_at w.own) w.standard w.multiple vs cell) × Roomy at end out.old }
    ensures { (vs : List Bytes) → CellHolds b.now (format_at w.own) w.standard w.multiple vs cell → Filling (together (end - at) (wanted w vs)) at write out.old out.new result }
{
    let run = run_of(b, cell, w);
    let p = put_run(b, run, w, out, at, end, write)?;
    filling::put_nulls(run.missing, w.format, w.size, out, p, end, write)
}
