// The uses of a format's elements, decoded once and kept one after the other as numbers.
ghost use Rattle.std.specs.Prelude.{◌≡◌, ◌+◌, ◌*◌, ◌≤◌, ◌<◌, [], ◌∷◌, length};
ghost use Rattle.std.proofs.lemmas.List.Edits.{sets};
ghost use Rattle.rules.specs.Limits.{longest_format};
ghost use Rattle.rules.specs.Lists.{Bytes};
ghost use Rattle.tables.specs.Entries.{Valid, entries_of};
ghost use Rattle.format_buffer.specs.Elements.{sound};
ghost use Rattle.uses.specs.Spread.{index_bound};
ghost use Rattle.uses.specs.Meanings.{indexes_kept};
ghost use Rattle.uses.specs.Kept.{numbers_kept, element_bytes, pair_base, pair, bare_weight, format_kept, span_at, use_at, span_kind, span_what, span_numbers, numbers, SmallSpan, small, Decodes};
ghost use Rattle.uses.specs.Decoding.{uses_so_far, KeepsElement};

use crate::{INDEXES, Index, Span, Use, meaning, memory, scopes};
use format_buffer::Element;
use rules::Refusal;
use value_formats::Format;

// How many numbers are kept of a use: what it is, and what it says.
pub const NUMBERS: usize = 4;

// What a use is. Of the values that it names the fields are as they are stored, or one is at a format and a length in effect.
const BLANKS: Index = 0;

const TEXT: Index = 1;

const GROUP_COUNT: Index = 2;

const VALUE_COUNT: Index = 3;

const STORED: Index = 4;

const IN_EFFECT: Index = 5;

// The first number of a use is its kind, which is below BARE. That of a span has more: to its kind is added whether its name is bare,
// its format and its size, each times its weight. A format's number is below FORMATS.
const BARE: Index = 8;

const FORMAT: Index = 16;

const SIZE: Index = 128;

const FORMATS: Index = 8;

// The other numbers of a span are pairs of numbers below this: its entries, its occurrences and its values. Any other use has its own
// numbers after its kind, as they are.
const PAIR: usize = 256;

// A use of a kind with two numbers.
fn put_numbers(kept: &mut [Index], at: usize, kind: Index, a: usize, b: usize)
    requires { (at + numbers_kept ≤ length kept.old) × (a < index_bound) × (b < index_bound) }
    ensures { kept.new ≡ sets kept.old at (kind ∷ a ∷ b ∷ []) }
{
    kept[at] = kind;
    kept[at + 1] = a as Index;
    kept[at + 2] = b as Index;
}

fn span_kind(standard: bool) -> Index
    ensures { (result ≡ span_kind standard) × (result < bare_weight) }
{
    if standard { STORED } else { IN_EFFECT }
}

// What a span is, in one number.
fn span_what(s: Span) -> Index
    requires { SmallSpan s }
    ensures { result ≡ span_what s }
{
    span_kind(s.standard)
        + BARE * Index::from(s.bare)
        + FORMAT * (s.format as Index)
        + SIZE * (s.size as Index)
}

// Two numbers as one.
fn pair(a: usize, b: usize) -> Index
    requires { (a < pair_base) × (b < pair_base) }
    ensures { result ≡ pair a b }
{
    (PAIR * a + b) as Index
}

fn put_span(kept: &mut [Index], at: usize, s: Span)
    requires { (at + numbers_kept ≤ length kept.old) × SmallSpan s }
    ensures { kept.new ≡ sets kept.old at (span_numbers s) }
{
    kept[at] = span_what(s);
    kept[at + 1] = pair(s.first, s.end);
    kept[at + 2] = pair(s.from, s.upto);
    kept[at + 3] = pair(s.value_from, s.value_upto);
}

// Keeps a use as the one with the number n.
fn put(kept: &mut [Index], n: usize, u: Use)
    requires { (numbers_kept * n + numbers_kept ≤ length kept.old) × small u }
    ensures { kept.new ≡ sets kept.old (numbers_kept * n) (numbers u) }
{
    let at = NUMBERS * n;
    match u {
        Use::Blanks(m) => {
            put_numbers(kept, at, BLANKS, m, 0);
        }
        Use::Text(from, upto) => {
            put_numbers(kept, at, TEXT, from, upto);
        }
        Use::GroupCount(i) => {
            put_numbers(kept, at, GROUP_COUNT, i, 0);
        }
        Use::ValueCount(i, k) => {
            put_numbers(kept, at, VALUE_COUNT, i, k);
        }
        Use::Values(s) => {
            put_span(kept, at, s);
        }
    }
}

// The format that is kept as a number.
#[tactic(auto, unfolding(crate::specs::Kept::format_kept))]
fn format_kept(n: Index) -> Format
    ensures { result ≡ format_kept n }
{
    match n {
        0 => Format::Alpha,
        1 => Format::Binary,
        2 => Format::Fixed,
        3 => Format::Packed,
        _ => Format::Unpacked,
    }
}

// The span whose numbers are kept at a place.
pub fn span_at(kept: &[Index], at: usize) -> Span
    requires { at + numbers_kept ≤ length kept.now }
    ensures { result ≡ span_at kept.now at }
{
    let what = kept[at];
    let entries = usize::from(kept[at + 1]);
    let occurrences = usize::from(kept[at + 2]);
    let values = usize::from(kept[at + 3]);
    Span {
        first: entries / PAIR,
        end: entries % PAIR,
        from: occurrences / PAIR,
        upto: occurrences % PAIR,
        value_from: values / PAIR,
        value_upto: values % PAIR,
        standard: what % BARE == STORED,
        format: format_kept(what / FORMAT % FORMATS),
        size: usize::from(what / SIZE),
        bare: what / BARE % 2 == 1,
    }
}

// The use with the number n.
#[tactic(auto, unfolding(crate::specs::Kept::use_at, crate::specs::Kept::use_of_kind))]
pub fn get(kept: &[Index], n: usize) -> Use
    requires { numbers_kept * n + numbers_kept ≤ length kept.now }
    ensures { result ≡ use_at kept.now n }
{
    let at = NUMBERS * n;
    match kept[at] % BARE {
        BLANKS => Use::Blanks(usize::from(kept[at + 1])),
        TEXT => Use::Text(usize::from(kept[at + 1]), usize::from(kept[at + 2])),
        GROUP_COUNT => Use::GroupCount(usize::from(kept[at + 1])),
        VALUE_COUNT => Use::ValueCount(usize::from(kept[at + 1]), usize::from(kept[at + 2])),
        _ => Use::Values(span_at(kept, at)),
    }
}

// One element more: its use is kept, or it is refused, as N is in an update. After an element that is refused the uses of the others do
// not matter.
fn keep_element(
    t: &[u8],
    e: Element,
    last: &mut [Index; INDEXES],
    kept: &mut [Index],
    d: Result<usize, Refusal>,
) -> Result<usize, Refusal>
    requires { Valid t.now × (length last.old ≡ indexes_kept) × (numbers_kept * uses_so_far d + numbers_kept ≤ length kept.old) × ((f : Bytes) × sound f e × (length f ≤ longest_format)) }
    ensures { KeepsElement (entries_of t.now) e last.old last.new kept.old kept.new d result }
{
    let n = d?;
    let m = meaning::use_of(t, last, e);
    let u = m.meant?;
    if !scopes::is_written(m.scopes) {
        return Err(Refusal::UseRule);
    }
    memory::remember(t, last, u, m.scopes.values);
    put(kept, n, u);
    Ok(n + 1)
}

// The uses of a format, or the first refusal, of the whole format's syntax, then of its elements.
pub fn decode(t: &[u8], f: &[u8], kept: &mut [Index]) -> Result<usize, Refusal>
    requires { Valid t.now × (numbers_kept * length f.now ≤ element_bytes * length kept.old) }
    ensures { Decodes (entries_of t.now) f.now kept.new result × (length kept.new ≡ length kept.old) }
{
    if rules::LONGEST_FORMAT < f.len() {
        return Err(Refusal::BadSyntax);
    }
    let mut last: [Index; INDEXES] = [0; INDEXES];
    let mut d = Ok(0);
    let mut at = 0;
    loop {
        let (e, stop) = format_buffer::syntax::next(f, at).ok_or(Refusal::BadSyntax)?;
        d = keep_element(t, e, &mut last, kept, d);
        if format_buffer::syntax::is_last(f, stop) {
            return d;
        }
        at = stop + 1;
    }
}
