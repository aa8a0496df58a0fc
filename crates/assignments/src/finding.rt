// What is assigned to a cell, found by the chains of uses that may name it.
ghost use Rattle.std.specs.Prelude.{◌≡◌, true, false, List, ℕ, ◌+◌, ◌*◌, ◌≤◌, ◌<◌, eqb, length, get_or};
ghost use Rattle.rules.specs.Limits.{most_entries, highest_index};
ghost use Rattle.rules.specs.Lists.{Bytes};
ghost use Rattle.rules.specs.Table.{Entry};
ghost use Rattle.rules.specs.Update.{Assignment};
ghost use Rattle.tables.specs.Entries.{Valid, entries_of, is_group, is_multiple, what_at};
ghost use Rattle.uses.specs.Kept.{numbers_kept, span_at, use_at};
ghost use Rattle.uses.specs.declared.Span.{Span};
ghost use Rattle.assignments.specs.Notes.{chains, uses_from, use_chain, names_cell, place_at, TakesAt, Indexed};
ghost use Rattle.assignments.specs.Answers.{OfEach, HasIndex, HasEntries, FoundIn, HasChains, HasBlock, BeginsAt, CanFill, Filled, Tallies, NamesAll, Highest, CanFind, Nameable};

use crate::{CELLS, FIRSTS, GROUPS, HIGHEST, NUMBERS, Naming, USES, VALUES, WIDTHS, chains};
use uses::{Index, Span};

// Whether use n, which names values, names entry i in occurrence o.
#[tactic(auto, unfolding(crate::specs::Notes::names_cell))]
fn names(kept: &[Index], n: usize, i: usize, o: usize) -> bool
    requires { numbers_kept * n + numbers_kept ≤ length kept.now }
    ensures { result ≡ names_cell (span_at kept.now (numbers_kept * n)) i o }
{
    let s = uses::kept::span_at(kept, uses::kept::NUMBERS * n);
    s.from <= o && o <= s.upto && s.first <= i && i < s.end
}

// The number of the first use of a chain that names entry i in occurrence o.
fn in_chain(kept: &[Index], list: &[u16], chain: usize, i: usize, o: usize) -> Option<usize>
    requires { HasIndex kept.now list.now × (chain < chains) }
    ensures { OfEach kept.now list.now (λ es f count stage ws. FoundIn kept.now count (λ n. eqb (use_chain (use_at kept.now n)) chain) i o result) }
{
    let mut n = list[chain] as usize;
    while 0 < n {
        if names(kept, n - 1, i, o) {
            return Some(n - 1);
        }
        n = list[USES + NUMBERS * (n - 1) + 1] as usize;
    }
    None
}

// The chains in which a use that names entry i in occurrence o may be: None where no occurrence from o on is named of entry i.
#[tactic(auto, using(crate::proofs::Searching::no_chains))]
fn chains_for(list: &[u16], i: usize, o: usize) -> Option<[usize; 3]>
    requires { (uses_from ≤ length list.now) × (i < most_entries) × (o ≤ highest_index) }
    ensures { HasChains list.now i o result }
{
    if (list[HIGHEST + i] as usize) < o {
        return None;
    }
    Some([chains::cell_chain(i, o), CELLS + i, GROUPS])
}

// The number of the use that names entry i in occurrence o.
fn use_of(kept: &[Index], list: &[u16], i: usize, o: usize) -> Option<usize>
    requires { ((es : List Entry) × (f : Bytes) × (count : ℕ) × (stage : Bytes) × (ws : List Assignment) × Indexed es f kept.now count list.now stage ws × (i < length es) × (is_group (what_at es i) ≡ false)) × (1 ≤ o) × (o ≤ highest_index) }
    ensures { OfEach kept.now list.now (λ es f count stage ws. FoundIn kept.now count (λ n. true) i o result) }
{
    for chain in chains_for(list, i, o)? {
        if let Some(n) = in_chain(kept, list, chain, i, o) {
            return Some(n);
        }
    }
    None
}

// Where the values that use n gives to entry i, a field of a standard length, in occurrence o begin.
// The values of one field are passed over one by one; several fields have fixed lengths, so their widths tell.
fn cell_start(
    kept: &[Index],
    list: &[u16],
    stage: &[u8],
    n: usize,
    i: usize,
    o: usize,
    size: usize,
) -> usize
    requires { HasBlock kept.now list.now stage.now n i o size }
    ensures { BeginsAt kept.now list.now stage.now n i o size result }
{
    let s = uses::kept::span_at(kept, uses::kept::NUMBERS * n);
    let at = list[USES + NUMBERS * n] as usize;
    let values = (o - s.from) * (s.value_upto + 1 - s.value_from);
    if s.first + 1 == s.end {
        return records::skip::values_end(stage, at, values, size);
    }
    let first = list[WIDTHS + s.first] as usize;
    let width = list[WIDTHS + s.end] as usize - first;
    at + values * width + (list[WIDTHS + i] as usize - first)
}

// One above the place of what value 1 of entry i takes in occurrence o: 0 where it takes nothing.
pub fn assigned(t: &[u8], kept: &[Index], list: &[u16], stage: &[u8], i: usize, o: usize) -> usize
    requires { Valid t.now × (i < length (entries_of t.now)) × (is_group (what_at (entries_of t.now) i) ≡ false) × (is_multiple (what_at (entries_of t.now) i) ≡ false) × CanFind (entries_of t.now) kept.now list.now stage.now o }
    ensures { (f : Bytes) (count : ℕ) (ws : List Assignment) → Indexed (entries_of t.now) f kept.now count list.now stage.now ws → TakesAt ws (place_at (entries_of t.now) i o 1) result }
{
    if o == 1 {
        return list[FIRSTS + i] as usize;
    }
    match use_of(kept, list, i, o) {
        Some(n) => cell_start(kept, list, stage, n, i, o, tables::size_at(t, i)) + 1,
        None => 0,
    }
}

// Notes the places of values, which stand one after the other on the stage.
fn fill(stage: &[u8], at: usize, s: Span, size: usize, by: &mut [u16; VALUES])
    requires { (length by.old ≡ highest_index + 1) × ((es : List Entry) × (ws : List Assignment) × (i : ℕ) × (o : ℕ) × CanFill es ws stage.now i o s at size) }
    ensures { (es : List Entry) (ws : List Assignment) (i : ℕ) (o : ℕ) → CanFill es ws stage.now i o s at size → Filled es ws i o s by.old by.new }
{
    let mut p = at;
    for k in s.value_from..=s.value_upto {
        by[k] = (p + 1) as u16;
        p = records::skip::values_end(stage, p, 1, size);
    }
}

// What the uses of one chain name of entry i in occurrence o, beside what was named before.
fn named_in(
    kept: &[Index],
    list: &[u16],
    stage: &[u8],
    chain: usize,
    i: usize,
    o: usize,
    size: usize,
    by: &mut [u16; VALUES],
    so_far: Naming,
) -> Naming
    requires { (chain < chains) × (length by.old ≡ highest_index + 1) × Nameable kept.now list.now stage.now i size }
    ensures { Tallies kept.now list.now stage.now chain i o size by.old by.new so_far result }
{
    let mut all = so_far;
    let mut n = list[chain] as usize;
    while 0 < n {
        if names(kept, n - 1, i, o) {
            let s = uses::kept::span_at(kept, uses::kept::NUMBERS * (n - 1));
            let at = cell_start(kept, list, stage, n - 1, i, o, size);
            fill(stage, at, s, size, by);
            all.highest = all.highest.max(s.value_upto);
            all.bare &= s.bare;
        }
        n = list[USES + NUMBERS * (n - 1) + 1] as usize;
    }
    all
}

// What is named of entry i in occurrence o. At each value that is named stands one above the place of what it takes.
pub fn named(
    kept: &[Index],
    list: &[u16],
    stage: &[u8],
    i: usize,
    o: usize,
    size: usize,
    by: &mut [u16; VALUES],
) -> Naming
    requires { (i < most_entries) × (1 ≤ o) × (o ≤ highest_index) × (length by.old ≡ highest_index + 1) × ((k : ℕ) → get_or by.old k 0 ≡ 0) × Nameable kept.now list.now stage.now i size }
    ensures { NamesAll kept.now list.now stage.now i o size by.new result }
{
    let Some(chains) = chains_for(list, i, o) else {
        return Naming {
            highest: 0,
            bare: false,
        };
    };
    let mut all = Naming {
        highest: 0,
        bare: true,
    };
    for chain in chains {
        all = named_in(kept, list, stage, chain, i, o, size, by, all);
    }
    Naming {
        bare: all.highest != 0 && all.bare,
        ..all
    }
}

// The highest occurrence in which a field among the entries from first to end is named: 0 where none is.
pub fn highest_occurrence(kept: &[Index], list: &[u16], first: usize, end: usize) -> usize
    requires { (first ≤ end) × HasEntries kept.now list.now end }
    ensures { Highest kept.now list.now first end result × (result ≤ highest_index) }
{
    let mut highest = 0usize;
    for i in first..end {
        highest = highest.max(list[HIGHEST + i] as usize);
    }
    highest
}
