// The uses of a format put into chains, so that those that name a cell are found.
ghost use Rattle.std.specs.Prelude.{◌≡◌, List, ◌+◌, ◌*◌, ◌≤◌, ◌<◌, length};
ghost use Rattle.rules.specs.Limits.{most_entries, highest_index};
ghost use Rattle.rules.specs.Lists.{Bytes};
ghost use Rattle.rules.specs.Update.{Assignment};
ghost use Rattle.tables.specs.Entries.{Valid, entries_of};
ghost use Rattle.uses.specs.Kept.{numbers_kept, use_at};
ghost use Rattle.uses.specs.declared.Span.{Span};
ghost use Rattle.assignments.specs.Notes.{chains, uses_from, cell_chain, span_chain, Unindexed, Listed};
ghost use Rattle.assignments.specs.Answers.{entry_marked, Marked, linked, Links, CanLink, Widened, LinkedAll, IndexesAll};

use crate::{CELLS, GROUPS, HIGHEST, NUMBERS, USES, WIDTHS};
use uses::{Index, Span, Use};

// The chain of entry i in occurrence o.
#[tactic(auto, unfolding(crate::specs::Notes::cell_chain))]
pub fn cell_chain(i: usize, o: usize) -> usize
    requires { (i < most_entries) × (o ≤ highest_index) }
    ensures { result ≡ cell_chain i o }
{
    (i * 67 + o) % CELLS
}

// The chain of a span.
#[tactic(auto, using(crate::proofs::PutBefore::cell_low), unfolding(crate::specs::Notes::span_chain))]
fn chain_of(s: Span) -> usize
    requires { (s.first < s.end) × (s.end ≤ most_entries) × (s.from ≤ s.upto) × (s.upto ≤ highest_index) }
    ensures { (result ≡ span_chain s) × (result < chains) }
{
    if s.first + 1 < s.end {
        GROUPS
    } else if s.from < s.upto {
        CELLS + s.first
    } else {
        cell_chain(s.first, s.from)
    }
}

// Marks an occurrence of entry i, where it is a field.
#[tactic(auto, using(tables::proofs::Tables::valid_most), unfolding(crate::specs::Answers::entry_marked))]
fn mark_entry(t: &[u8], list: &mut [u16], i: usize, upto: usize)
    requires { Valid t.now × (uses_from ≤ length list.old) × (i < length (entries_of t.now)) × (upto ≤ highest_index) }
    ensures { list.new ≡ entry_marked (entries_of t.now) list.old i upto }
{
    if !tables::group_at(t, i) {
        let highest = &mut list[HIGHEST + i];
        *highest = (*highest).max(upto as u16);
    }
}

// Marks the last occurrence of a span at its fields.
#[tactic(auto, using(crate::proofs::Setting::marking_start, crate::proofs::Setting::marking_end))]
fn mark(t: &[u8], list: &mut [u16], s: Span)
    requires { Valid t.now × (uses_from ≤ length list.old) × (s.end ≤ length (entries_of t.now)) × (s.upto ≤ highest_index) }
    ensures { Marked (entries_of t.now) s list.old list.new }
{
    for i in s.first..s.end {
        mark_entry(t, list, i, s.upto);
    }
}

// Puts the span with the number n before those of its chain.
#[tactic(auto, using(crate::proofs::PutBefore::linked_length, crate::proofs::PutBefore::marked_linked))]
fn link_span(t: &[u8], list: &mut [u16], n: usize, s: Span)
    requires { Valid t.now × CanLink (entries_of t.now) n s list.old }
    ensures { Marked (entries_of t.now) s (linked n s list.old) list.new }
{
    let chain = chain_of(s);
    list[USES + NUMBERS * n + 1] = list[chain];
    list[chain] = (n + 1) as u16;
    mark(t, list, s);
}

// The same of use n: only values are in a chain.
#[tactic(auto, using(crate::proofs::PutBefore::links_as, crate::proofs::PutBefore::links_other))]
fn link(t: &[u8], kept: &[Index], list: &mut [u16], n: usize)
    requires { Valid t.now × (numbers_kept * n + numbers_kept ≤ length kept.now) × ((s : Span) → use_at kept.now n ≡ Use.Values s → CanLink (entries_of t.now) n s list.old) }
    ensures { Links (entries_of t.now) n (use_at kept.now n) list.old list.new }
{
    if let Use::Values(s) = uses::kept::get(kept, n) {
        link_span(t, list, n, s);
    }
}

// Notes the widths of the entries.
#[tactic(auto, using(tables::proofs::Tables::valid_most, crate::proofs::Setting::widening_same, crate::proofs::Setting::widening_start, crate::proofs::Setting::widening_end))]
fn put_widths(t: &[u8], list: &mut [u16])
    requires { Valid t.now × (uses_from ≤ length list.old) }
    ensures { Widened (entries_of t.now) list.old list.new }
{
    let mut width = 0;
    list[WIDTHS] = 0;
    for i in 0..tables::count(t) {
        width += tables::size_at(t, i);
        list[WIDTHS + i + 1] = width as u16;
    }
}

// Puts uses in their chains, from the last to the first.
#[tactic(auto, using(tables::proofs::Tables::valid_most, crate::proofs::Linking::linking_start, crate::proofs::Linking::linking_end))]
fn link_all(t: &[u8], kept: &[Index], list: &mut [u16], count: usize)
    requires { Valid t.now × Unindexed list.old × ((f : Bytes) × (stage : Bytes) × (ws : List Assignment) × Listed (entries_of t.now) f kept.now count list.old stage ws) }
    ensures { (f : Bytes) (stage : Bytes) (ws : List Assignment) → Listed (entries_of t.now) f kept.now count list.old stage ws → LinkedAll (entries_of t.now) f kept.now count list.new stage ws }
{
    for n in (0..count).rev() {
        link(t, kept, list, n);
    }
}

// Makes a list of `count` uses one that can be searched. The widths are needed only where a use has several fields.
pub fn index(t: &[u8], kept: &[Index], list: &mut [u16], count: usize)
    requires { Valid t.now × Unindexed list.old × ((f : Bytes) × (stage : Bytes) × (ws : List Assignment) × Listed (entries_of t.now) f kept.now count list.old stage ws) }
    ensures { IndexesAll (entries_of t.now) kept.now count list.old list.new }
{
    link_all(t, kept, list, count);
    if 0 < list[GROUPS] {
        put_widths(t, list);
    }
}
