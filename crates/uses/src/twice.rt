// Refusal 6: whether two elements of a format name an occurrence in common, by their uses as they are kept.
ghost use Rattle.std.specs.Prelude.{◌≡◌, ◌+◌, ◌*◌, ◌≤◌, length};
ghost use Rattle.rules.specs.Limits.{most_entries};
ghost use Rattle.rules.specs.Lists.{Bytes};
ghost use Rattle.rules.specs.Update.{share};
ghost use Rattle.tables.specs.Entries.{Valid, entries_of};
ghost use Rattle.uses.specs.Meant.{GoodSpan};
ghost use Rattle.uses.specs.Kept.{numbers_kept, use_at, GoodUses};
ghost use Rattle.uses.specs.Boxes.{Boxed};
ghost use Rattle.uses.specs.Twice.{stored_fields, GoodSpans, Alike, Met, NamedTwice};

use crate::boxes::{Boxes, EntryBox};
use crate::{Index, Span, Use, boxes, kept, ranges};

// Whether two spans of entries have a field in common: names differ, so that it is one entry of both.
#[tactic(auto, using(crate::proofs::Sharing::sharing_laws))]
fn share_entries(t: &[u8], first: usize, end: usize, low: usize, high: usize) -> bool
    requires { Valid t.now × (end ≤ length (entries_of t.now)) × (high ≤ length (entries_of t.now)) }
    ensures { result ≡ share (stored_fields (entries_of t.now) first end) (stored_fields (entries_of t.now) low high) }
{
    for i in first.max(low)..end.min(high) {
        if !tables::group_at(t, i) {
            return true;
        }
    }
    false
}

// Whether two spans name an occurrence in common.
fn spans_alike(t: &[u8], a: Span, b: Span) -> bool
    requires { Valid t.now × GoodSpan (entries_of t.now) a × GoodSpan (entries_of t.now) b }
    ensures { Alike (entries_of t.now) (Use.Values a) (Use.Values b) result }
{
    ranges::meet(a.from, a.upto, b.from, b.upto)
        && ranges::meet(a.value_from, a.value_upto, b.value_from, b.value_upto)
        && share_entries(t, a.first, a.end, b.first, b.end)
}

// Whether the use with the number i names an occurrence that a span names. Counts, spaces and text name nothing.
fn use_alike(t: &[u8], kept: &[Index], i: usize, s: Span) -> bool
    requires { Valid t.now × (numbers_kept * i + numbers_kept ≤ length kept.now) × GoodSpans (entries_of t.now) kept.now (i + 1) × GoodSpan (entries_of t.now) s }
    ensures { Alike (entries_of t.now) (use_at kept.now i) (Use.Values s) result }
{
    match kept::get(kept, i) {
        Use::Values(a) => spans_alike(t, a, s),
        _ => false,
    }
}

// Whether one of the first count uses names an occurrence that a span names.
fn met_before(t: &[u8], kept: &[Index], count: usize, s: Span) -> bool
    requires { Valid t.now × (numbers_kept * count ≤ length kept.now) × GoodSpans (entries_of t.now) kept.now count × GoodSpan (entries_of t.now) s }
    ensures { Met (entries_of t.now) kept.now count (Use.Values s) result }
{
    for i in (0..count).rev() {
        if use_alike(t, kept, i, s) {
            return true;
        }
    }
    false
}

// Whether the use with the number n names an occurrence that one before it names.
#[tactic(auto, using(tables::proofs::Tables::valid_most, crate::proofs::Meeting::met_other))]
fn named_before(t: &[u8], kept: &[Index], n: usize, boxes: &Boxes) -> bool
    requires { Valid t.now × (numbers_kept * n + numbers_kept ≤ length kept.now) × GoodSpans (entries_of t.now) kept.now (n + 1) × (length boxes.now ≡ most_entries) × Boxed kept.now n boxes.now }
    ensures { Met (entries_of t.now) kept.now n (use_at kept.now n) result }
{
    match kept::get(kept, n) {
        Use::Values(s) => boxes::meets_box(boxes, s) && met_before(t, kept, n, s),
        _ => false,
    }
}

// Whether two of the first count uses name an occurrence in common.
#[tactic(auto, using(crate::proofs::Meeting::once_laws))]
pub fn named_twice(t: &[u8], kept: &[Index], count: usize) -> bool
    requires { Valid t.now × (numbers_kept * count ≤ length kept.now) × ((f : Bytes) × GoodUses (entries_of t.now) f kept.now count) }
    ensures { NamedTwice (entries_of t.now) kept.now count result }
{
    let mut boxes: Boxes = [EntryBox::EMPTY; rules::MOST_ENTRIES];
    for n in 0..count {
        if named_before(t, kept, n, &boxes) {
            return true;
        }
        boxes::mark(kept, n, &mut boxes);
    }
    false
}
