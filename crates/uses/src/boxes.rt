// What the uses so far name of each entry, at most: a box of occurrences and of values, by the least and the greatest of each. A use
// that meets no box of its entries names nothing that was named before.
ghost use Rattle.std.specs.Prelude.{◌≡◌, false, List, ◌+◌, ◌*◌, ◌≤◌, ◌<◌, length};
ghost use Rattle.rules.specs.Limits.{most_entries};
ghost use Rattle.rules.specs.Table.{Entry};
ghost use Rattle.uses.specs.Meant.{GoodSpanOf};
ghost use Rattle.uses.specs.Kept.{numbers_kept, use_at, SmallSpan};
ghost use Rattle.uses.specs.Boxes.{box_meets, Clear, Widens, Marks, BoxesMore};

use crate::{Index, Span, Use, kept, ranges};

// The box of an entry. It holds no occurrence where `upto` is 0, and no value where `value_upto` is.
#[derive(Clone, Copy)]
pub struct EntryBox {
    pub from: Index,
    pub upto: Index,
    pub value_from: Index,
    pub value_upto: Index,
}

impl EntryBox {
    pub const EMPTY: EntryBox = EntryBox {
        from: 0,
        upto: 0,
        value_from: 0,
        value_upto: 0,
    };
}

// One for each entry.
pub type Boxes = [EntryBox; rules::MOST_ENTRIES];

// Whether a box has an occurrence and a value in common with a span.
fn box_meets(b: EntryBox, s: Span) -> bool
    ensures { result ≡ box_meets b s }
{
    ranges::meet(usize::from(b.from), usize::from(b.upto), s.from, s.upto)
        && ranges::meet(
            usize::from(b.value_from),
            usize::from(b.value_upto),
            s.value_from,
            s.value_upto,
        )
}

// Whether the box of one of its entries meets a span.
pub fn meets_box(boxes: &Boxes, s: Span) -> bool
    requires { (length boxes.now ≡ most_entries) × (s.end ≤ most_entries) }
    ensures { result ≡ false → Clear boxes.now s s.end }
{
    for j in s.first..s.end {
        if box_meets(boxes[j], s) {
            return true;
        }
    }
    false
}

// The lesser of two, where the box that one is from is not empty.
fn least(low: Index, upto: Index, from: Index) -> Index
    ensures { (result ≤ from) × (0 < upto → result ≤ low) }
{
    if upto == 0 { from } else { low.min(from) }
}

// A box with a span in it too.
fn widened(b: EntryBox, s: Span) -> EntryBox
    requires { SmallSpan s × (0 < s.upto) × (0 < s.value_upto) }
    ensures { Widens b result s }
{
    EntryBox {
        from: least(b.from, b.upto, s.from as Index),
        upto: b.upto.max(s.upto as Index),
        value_from: least(b.value_from, b.value_upto, s.value_from as Index),
        value_upto: b.value_upto.max(s.value_upto as Index),
    }
}

// The boxes of its entries with a span in them too.
#[tactic(auto, using(crate::proofs::Marking::marks_start, crate::proofs::Marking::marks_end))]
fn mark_span(boxes: &mut Boxes, s: Span)
    requires { (length boxes.old ≡ most_entries) × (s.end ≤ most_entries) × SmallSpan s × (0 < s.upto) × (0 < s.value_upto) }
    ensures { Marks boxes.old boxes.new s s.end }
{
    for j in s.first..s.end {
        boxes[j] = widened(boxes[j], s);
    }
}

// The boxes with the use with the number n in them too.
pub fn mark(kept: &[Index], n: usize, boxes: &mut Boxes)
    requires { (numbers_kept * n + numbers_kept ≤ length kept.now) × (length boxes.old ≡ most_entries) × ((es : List Entry) × (length es ≤ most_entries) × GoodSpanOf es (use_at kept.now n)) }
    ensures { BoxesMore kept.now n boxes.old boxes.new }
{
    if let Use::Values(s) = kept::get(kept, n) {
        mark_span(boxes, s);
    }
}
