// What an element means, by the entries that it names.
ghost use Rattle.std.specs.Prelude.{◌≡◌, true, false, ◌<◌, length};
ghost use Rattle.rules.specs.Limits.{most_entries};
ghost use Rattle.tables.specs.Entries.{Valid, entries_of, is_group, is_multiple, what_at};
ghost use Rattle.tables.specs.Places.{inside_at};
ghost use Rattle.uses.specs.Spread.{index_bound};
ghost use Rattle.uses.specs.Meant.{Settles, SettlesEntry, field_use, group_use, entry_use, count_use, series_use, count_named, series_named, stored_span, field_span};
ghost use Rattle.uses.specs.Meanings.{unscoped, name_in_full, Means, NameMeans};

use crate::scopes::Meaning;
use crate::spread::Ranges;
use crate::{AFTER_N, INDEXES, Index, NEAR, Span, Use, effect, scopes, spread};
use format_buffer::{Count, Element, Indexing, Named};
use rules::Refusal;
use value_formats::Format;

// Fields at their own formats and lengths.
fn stored(first: usize, end: usize, r: Ranges) -> Span
    ensures { result ≡ stored_span first end r }
{
    Span {
        first,
        end,
        from: r.from,
        upto: r.upto,
        value_from: r.value_from,
        value_upto: r.value_upto,
        standard: true,
        format: Format::Alpha,
        size: 0,
        bare: r.bare,
    }
}

// One field at the format and the length in effect.
fn one_field(i: usize, r: Ranges, format: Format, size: usize) -> Span
    requires { i < most_entries }
    ensures { result ≡ field_span i r format size }
{
    Span {
        first: i,
        end: i + 1,
        from: r.from,
        upto: r.upto,
        value_from: r.value_from,
        value_upto: r.value_upto,
        standard: false,
        format,
        size,
        bare: r.bare,
    }
}

// The field of entry i, after its last index so far.
#[tactic(auto, using(crate::proofs::Settling::field_laws))]
fn use_of_field(t: &[u8], i: usize, last: usize, n: Named) -> Result<Use, Refusal>
    requires { Valid t.now × (i < length (entries_of t.now)) × (is_group (what_at (entries_of t.now) i) ≡ false) × (last < index_bound) }
    ensures { SettlesEntry (entries_of t.now) i (field_use (entries_of t.now) i last n) result }
{
    let spread = spread::spread(tables::inside(t, i), tables::multiple_at(t, i), last, n);
    let ranges = spread.ok_or(Refusal::UseRule)?;
    let asked = effect::asked(tables::field_format(t, i), tables::size_at(t, i), n);
    let (format, size) = asked.ok_or(Refusal::UseRule)?;
    Ok(Use::Values(one_field(i, ranges, format, size)))
}

// The fields of group i: it takes no length and no format.
#[tactic(auto, using(crate::proofs::Settling::group_laws))]
fn use_of_group(t: &[u8], i: usize, n: Named) -> Result<Use, Refusal>
    requires { Valid t.now × (i < length (entries_of t.now)) × (is_group (what_at (entries_of t.now) i) ≡ true) }
    ensures { SettlesEntry (entries_of t.now) i (group_use (entries_of t.now) i n) result }
{
    if n.length.is_some() || n.letter.is_some() || !tables::plain_group(t, i) {
        return Err(Refusal::UseRule);
    }
    let ranges = spread::spread(tables::inside(t, i), false, 0, n).ok_or(Refusal::UseRule)?;
    Ok(Use::Values(stored(i + 1, tables::group_end(t, i), ranges)))
}

// The count of the MU field of entry i.
#[tactic(auto, using(crate::proofs::Settling::value_count_laws))]
fn use_of_value_count(t: &[u8], i: usize, c: Count) -> Result<Use, Refusal>
    requires { Valid t.now × (i < length (entries_of t.now)) × (is_multiple (what_at (entries_of t.now) i) ≡ true) }
    ensures { Settles (entries_of t.now) (count_use (entries_of t.now) i c) result }
{
    match c.index {
        Some(x) => {
            let k = usize::from(x.from);
            if !tables::inside(t, i) || !spread::in_order(k, k) {
                return Err(Refusal::UseRule);
            }
            Ok(Use::ValueCount(i, k))
        }
        None => {
            if tables::inside(t, i) {
                return Err(Refusal::UseRule);
            }
            Ok(Use::ValueCount(i, 1))
        }
    }
}

// The count of entry i.
#[tactic(auto, using(crate::proofs::Settling::count_laws))]
fn use_of_count(t: &[u8], i: usize, c: Count) -> Result<Use, Refusal>
    requires { Valid t.now × (i < length (entries_of t.now)) }
    ensures { Settles (entries_of t.now) (count_use (entries_of t.now) i c) result }
{
    if tables::multiple_at(t, i) {
        return use_of_value_count(t, i, c);
    }
    if tables::periodic_at(t, i) && c.index.is_none() {
        return Ok(Use::GroupCount(i));
    }
    Err(Refusal::UseRule)
}

// The series from entry i to entry j.
#[tactic(auto, using(crate::proofs::Settling::series_laws))]
fn use_of_series(t: &[u8], i: usize, j: usize) -> Result<Use, Refusal>
    requires { Valid t.now × (i < length (entries_of t.now)) × (j < length (entries_of t.now)) }
    ensures { Settles (entries_of t.now) (series_use (entries_of t.now) i j) result }
{
    if tables::group_at(t, i) || tables::inside(t, i) || !tables::series(t, i, j) {
        return Err(Refusal::UseRule);
    }
    Ok(Use::Values(stored(i, j + 1, Ranges::ONE)))
}

// The group or the field of entry i, after its last index so far.
fn use_of_entry(t: &[u8], i: usize, last: usize, n: Named) -> Result<Use, Refusal>
    requires { Valid t.now × (i < length (entries_of t.now)) × (last < index_bound) }
    ensures { SettlesEntry (entries_of t.now) i (entry_use (entries_of t.now) i last n) result }
{
    if tables::group_at(t, i) {
        return use_of_group(t, i, n);
    }
    use_of_field(t, i, last, n)
}

// The bare name of entry i after N, outside periodic groups, is that name with N.
fn in_full(t: &[u8], i: usize, last: usize, n: Named) -> Named
    requires { Valid t.now × (i < length (entries_of t.now)) }
    ensures { result ≡ name_in_full (inside_at (entries_of t.now) i) last n }
{
    if last == usize::from(AFTER_N) && n.occurrences.is_none() && !tables::inside(t, i) {
        return n.with_occurrences(Indexing::LAST);
    }
    n
}

// What has no N.
fn unscoped(meant: Result<Use, Refusal>) -> Meaning
    ensures { result ≡ unscoped meant }
{
    Meaning {
        meant,
        scopes: scopes::both_written(),
    }
}

// A name, after the last index so far of each entry. A format mostly names fields in table order, so the entry after the one that was
// named last is tried first.
#[tactic(auto, using(crate::proofs::Elements::name_laws))]
fn use_of_name(t: &[u8], last: &[Index; INDEXES], n: Named) -> Meaning
    requires { Valid t.now }
    ensures { NameMeans (entries_of t.now) last.now n result }
{
    let found = tables::find_near(t, usize::from(last[NEAR]), n.name);
    match found {
        Some(i) => {
            let kept = usize::from(last[i]);
            let full = in_full(t, i, kept, n);
            Meaning {
                meant: use_of_entry(t, i, kept, full),
                scopes: scopes::of_name(t, i, full),
            }
        }
        None => unscoped(Err(Refusal::UnknownName)),
    }
}

#[tactic(auto, using(crate::proofs::Finding::count_laws))]
fn use_of_counted(t: &[u8], c: Count) -> Result<Use, Refusal>
    requires { Valid t.now }
    ensures { Settles (entries_of t.now) (count_named (entries_of t.now) c) result }
{
    let i = tables::find(t, c.name).ok_or(Refusal::UnknownName)?;
    use_of_count(t, i, c)
}

#[tactic(auto, using(crate::proofs::Finding::series_laws))]
fn use_of_names(t: &[u8], from: u16, upto: u16) -> Result<Use, Refusal>
    requires { Valid t.now }
    ensures { Settles (entries_of t.now) (series_named (entries_of t.now) from upto) result }
{
    let i = tables::find(t, from).ok_or(Refusal::UnknownName)?;
    let j = tables::find(t, upto).ok_or(Refusal::UnknownName)?;
    use_of_series(t, i, j)
}

// What an element of a read means.
#[tactic(auto, using(crate::proofs::Elements::element_laws))]
pub fn use_of(t: &[u8], last: &[Index; INDEXES], e: Element) -> Meaning
    requires { Valid t.now }
    ensures { Means (entries_of t.now) last.now e result }
{
    match e {
        Element::Blanks(n) => unscoped(Ok(Use::Blanks(usize::from(n)))),
        Element::Text(from, upto) => unscoped(Ok(Use::Text(from, upto))),
        Element::Named(n) => use_of_name(t, last, n),
        Element::Count(c) => Meaning {
            meant: use_of_counted(t, c),
            scopes: scopes::of_count(c),
        },
        Element::Series(from, upto) => unscoped(use_of_names(t, from, upto)),
    }
}
