// The occurrences of a span: fields as they are stored, copied in as few pieces as they stand in, or one field at a format and a length.
ghost use Rattle.std.specs.Prelude.{◌≡◌, map, true, false, ◌+◌, ◌-◌, ◌≤◌, ◌<◌, min, length};
ghost use Rattle.std.proofs.Math.Seq.{slice};
ghost use Rattle.rules.specs.Limits.{highest_index};
ghost use Rattle.rules.specs.Lists.{all};
ghost use Rattle.rules.specs.Use.{plain};
ghost use Rattle.rules.specs.Record.{Record};
ghost use Rattle.tables.specs.Entries.{Valid, entries_of};
ghost use Rattle.tables.specs.Places.{inside_at};
ghost use Rattle.tables.specs.Groups.{field_at, fields_in};
ghost use Rattle.uses.specs.Meant.{GoodSpan, fields_from};
ghost use Rattle.records.specs.Paths.{Wide, Leads};
ghost use Rattle.records.specs.Places.{IsRecord, HasRecord, PieceOf};
ghost use Rattle.filling.specs.Filling.{Roomy, Filling, together};
ghost use Rattle.reading.specs.Spans.{Fills, FillsBy, FieldsNumbered, nulls_of, occurrence_items, span_items, scoped_items, ScopedValues, Way, occurrences_items, Adjacent};

use super::cells;
use format_buffer::Scope;
use records::paths::Path;
use rules::{MOST_ENTRIES, Refusal};
use uses::Span;

// The width of a span's fields together, where all are of fixed length and none is MU; otherwise it means nothing.
fn width(t: &[u8], s: Span) -> usize
    requires { Valid t.now × GoodSpan (entries_of t.now) s }
    ensures { all plain (fields_in (slice s.first s.end (entries_of t.now))) ≡ true → Wide (fields_in (slice s.first s.end (entries_of t.now))) result }
{
    records::paths::width_of(t, s.first, s.end).unwrap_or(0)
}

// Where the fields of a span stand in occurrence o, one after the other, by the way to the first and their width.
fn piece(
    t: &[u8],
    b: &[u8],
    places: &[u16; records::DIRECTORY],
    s: Span,
    path: Path,
    width: usize,
    o: usize,
) -> Option<(usize, usize)>
    requires { Valid t.now × GoodSpan (entries_of t.now) s × (s.standard ≡ true) × Way (entries_of t.now) s path width × (1 ≤ o) × (o ≤ s.upto) × HasRecord (entries_of t.now) b.now places.now }
    ensures { (r : Record) → IsRecord (entries_of t.now) b.now places.now r → PieceOf (entries_of t.now) b.now s.first s.end o r result }
{
    if path.inside {
        return records::places::piece_inside(t, b, places, path, s.end, width, o);
    }
    records::places::piece_outside(t, b, places, s.first, s.end)
}

// The nulls of fields, by their entry numbers, each at its own format and length.
fn put_null_fields(
    t: &[u8],
    fields: &[u8],
    out: &mut [u8],
    at: usize,
    end: usize,
    write: bool,
) -> Result<usize, Refusal>
    requires { Valid t.now × FieldsNumbered (entries_of t.now) fields.now × Roomy at end out.old }
    ensures { Filling (together (end - at) (nulls_of (map (field_at (entries_of t.now)) fields.now))) at write out.old out.new result }
{
    let mut p = at;
    for &field in fields {
        let i = usize::from(field);
        let format = tables::field_format(t, i);
        p = filling::put_nulls(1, format, tables::size_at(t, i), out, p, end, write)?;
    }
    Ok(p)
}

// The nulls of a group's fields, for an occurrence that does not exist.
fn put_null_occurrence(
    t: &[u8],
    s: Span,
    out: &mut [u8],
    at: usize,
    end: usize,
    write: bool,
) -> Result<usize, Refusal>
    requires { Valid t.now × GoodSpan (entries_of t.now) s × (s.standard ≡ true) × (inside_at (entries_of t.now) s.first ≡ true) × Roomy at end out.old }
    ensures { Filling (together (end - at) (nulls_of (fields_from (entries_of t.now) s.first s.end))) at write out.old out.new result }
{
    let mut fields = [0u8; MOST_ENTRIES];
    let n = tables::expand(t, s.first - 1, &mut fields);
    put_null_fields(t, &fields[..n], out, at, end, write)
}

// A span of fields as they are stored, in occurrence o: copied in one piece, or null for each where there is no such occurrence.
fn put_occurrence(
    t: &[u8],
    b: &[u8],
    places: &[u16; records::DIRECTORY],
    s: Span,
    path: Path,
    width: usize,
    o: usize,
    out: &mut [u8],
    at: usize,
    end: usize,
    write: bool,
) -> Result<usize, Refusal>
    requires { Valid t.now × GoodSpan (entries_of t.now) s × (s.standard ≡ true) × Way (entries_of t.now) s path width × (1 ≤ o) × (o ≤ s.upto) × HasRecord (entries_of t.now) b.now places.now × Roomy at end out.old }
    ensures { Fills (entries_of t.now) b.now places.now (occurrence_items (entries_of t.now) s o) at end write out.old out.new result }
{
    match piece(t, b, places, s, path, width, o) {
        Some((from, upto)) => filling::put_bytes(&b[from..upto], out, at, end, write),
        None => put_null_occurrence(t, s, out, at, end, write),
    }
}

// How many of the occurrences from..=upto exist, where the record has count of them.
fn occurrences_existing(count: usize, from: usize, upto: usize) -> usize
    requires { (from ≤ upto) × (upto ≤ highest_index) }
    ensures { result ≡ min count upto + 1 - from }
{
    (count.min(upto) + 1).saturating_sub(from)
}

// How many occurrences of a span stand one after the other, from its first on: those that exist, where the span is the whole of a
// periodic group.
fn adjacent_count(
    t: &[u8],
    b: &[u8],
    places: &[u16; records::DIRECTORY],
    s: Span,
    path: Path,
) -> usize
    requires { Valid t.now × GoodSpan (entries_of t.now) s × (path.entry ≡ s.first) × Leads (entries_of t.now) path × HasRecord (entries_of t.now) b.now places.now }
    ensures { Adjacent (entries_of t.now) b.now places.now s path result }
{
    if path.inside && s.first == path.group + 1 && s.end == tables::group_end(t, path.group) {
        let count = records::places::group_count(t, b, places, path.group);
        return occurrences_existing(count, s.from, s.upto);
    }
    0
}

// The first n occurrences of a span of fields as they are stored, which are adjacent in the record: one copy.
fn put_adjacent(
    t: &[u8],
    b: &[u8],
    places: &[u16; records::DIRECTORY],
    s: Span,
    path: Path,
    width: usize,
    n: usize,
    out: &mut [u8],
    at: usize,
    end: usize,
    write: bool,
) -> Result<usize, Refusal>
    requires { Valid t.now × GoodSpan (entries_of t.now) s × (s.standard ≡ true) × Way (entries_of t.now) s path width × Adjacent (entries_of t.now) b.now places.now s path n × HasRecord (entries_of t.now) b.now places.now × Roomy at end out.old }
    ensures { Fills (entries_of t.now) b.now places.now (occurrences_items (entries_of t.now) s s.from (s.from + n - 1)) at end write out.old out.new result }
{
    if n == 0 {
        return Ok(at);
    }
    let from = records::places::occurrences_at(t, b, places, path.group, width, s.from, n);
    let upto = from + n * width;
    filling::put_bytes(&b[from..upto], out, at, end, write)
}

// A span of fields as they are stored: the occurrences that stand together first, then one by one; the way to them is found once.
fn put_occurrences(
    t: &[u8],
    b: &[u8],
    places: &[u16; records::DIRECTORY],
    s: Span,
    out: &mut [u8],
    at: usize,
    end: usize,
    write: bool,
) -> Result<usize, Refusal>
    requires { Valid t.now × GoodSpan (entries_of t.now) s × (s.standard ≡ true) × HasRecord (entries_of t.now) b.now places.now × Roomy at end out.old }
    ensures { Fills (entries_of t.now) b.now places.now (span_items (entries_of t.now) s s.from) at end write out.old out.new result }
{
    let path = records::paths::path_to(t, s.first);
    let width = width(t, s);
    let n = adjacent_count(t, b, places, s, path);
    let mut p = put_adjacent(t, b, places, s, path, width, n, out, at, end, write)?;
    for o in s.from + n..=s.upto {
        p = put_occurrence(t, b, places, s, path, width, o, out, p, end, write)?;
    }
    Ok(p)
}

// A span of one field at a format and a length, occurrence by occurrence, by how far its values reach; the way to it is found once.
fn put_column(
    t: &[u8],
    b: &[u8],
    places: &[u16; records::DIRECTORY],
    s: Span,
    scope: Scope,
    out: &mut [u8],
    at: usize,
    end: usize,
    write: bool,
) -> Result<usize, Refusal>
    requires { Valid t.now × GoodSpan (entries_of t.now) s × (s.standard ≡ false) × ScopedValues (entries_of t.now) s scope × HasRecord (entries_of t.now) b.now places.now × Roomy at end out.old }
    ensures { FillsBy (entries_of t.now) b.now places.now (λ x. scoped_items (entries_of t.now) x s scope s.from) at end write out.old out.new result }
{
    let w = cells::wanted_of(
        t,
        s.first,
        s.value_from,
        s.value_upto,
        scope,
        s.format,
        s.size,
    );
    let path = records::paths::path_to(t, s.first);
    let mut p = at;
    for o in s.from..=s.upto {
        let cell = records::places::cell_by(t, b, places, path, o);
        p = cells::put_cell(b, cell, w, out, p, end, write)?;
    }
    Ok(p)
}

// A span, by how far its values reach.
pub fn put_span(
    t: &[u8],
    b: &[u8],
    places: &[u16; records::DIRECTORY],
    s: Span,
    scope: Scope,
    out: &mut [u8],
    at: usize,
    end: usize,
    write: bool,
) -> Result<usize, Refusal>
    requires { Valid t.now × GoodSpan (entries_of t.now) s × ScopedValues (entries_of t.now) s scope × HasRecord (entries_of t.now) b.now places.now × Roomy at end out.old }
    ensures { FillsBy (entries_of t.now) b.now places.now (λ x. scoped_items (entries_of t.now) x s scope s.from) at end write out.old out.new result }
{
    if s.standard {
        return put_occurrences(t, b, places, s, out, at, end, write);
    }
    put_column(t, b, places, s, scope, out, at, end, write)
}
