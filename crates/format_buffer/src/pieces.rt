// A piece is what stands between two commas, without the spaces around it: an element, or a length or a format of the
// name before it. Each function reads the bytes from one place up to another, by the rule of its name.
ghost use Rattle.std.specs.Prelude.{◌≡◌, [], ◌∷◌, ◌≤◌, ◌<◌, length};
ghost use Rattle.rules.specs.Lists.{Bytes};
ghost use Rattle.rules.specs.Table.{name_of};
ghost use Rattle.rules.specs.Format.{parenthesis, after_range, after_index, series_to, after_name, after_number, text_piece, piece};
ghost use Rattle.format_buffer.specs.Part.{part};
ghost use Rattle.format_buffer.specs.Elements.{indexing_of, SmallIndexing};
ghost use Rattle.format_buffer.specs.Pieces.{Bracketed, Pieced, as_piece, no_apostrophe, number_piece};

use super::numbers::{alone, digit_of, index_first, number_first, range_end};
use super::{Count, Element, Indexing, Named, Scope};
use characters::{
    APOSTROPHE, CLOSE, HYPHEN, LETTER_C, LETTER_X, OPEN, is_digit, is_name, is_override,
};

#[derive(Clone, Copy)]
pub enum Piece {
    Element(Element),
    Length(u16),
    Format(u8),
}

fn parenthesis(f: &[u8], at: usize, upto: usize) -> Option<Indexing>
    requires { (at ≤ upto) × (upto ≤ length f.now) }
    ensures { Bracketed (parenthesis (part f.now at upto)) result }
{
    let (k, p) = index_first(f, at, upto)?;
    let (x, q) = range_end(f, p, upto, k)?;
    if alone(f, q, upto, CLOSE) {
        Some(x)
    } else {
        None
    }
}

#[tactic(auto, using(crate::proofs::Indexes::all_bracketless, crate::proofs::Names::after_range_all))]
fn after_range(f: &[u8], at: usize, upto: usize, name: u16, x: Indexing) -> Option<Piece>
    requires { (at ≤ upto) × (upto ≤ length f.now) × SmallIndexing x }
    ensures { Pieced f.now (as_piece (after_range name (indexing_of x) (part f.now at upto))) result }
{
    let n = Named::bare(name).with_occurrences(x);
    if at == upto {
        return Some(Piece::Element(Element::Named(n)));
    }
    if x.scope == Scope::UpToLast {
        return None;
    }
    if f[at] != OPEN {
        return None;
    }
    let v = parenthesis(f, at + 1, upto)?;
    Some(Piece::Element(Element::Named(n.with_values(v))))
}

fn after_index(f: &[u8], at: usize, upto: usize, name: u16, x: Indexing) -> Option<Piece>
    requires { (at ≤ upto) × (upto ≤ length f.now) × SmallIndexing x × (x.scope ≡ Scope.UpToLast → ⊥) }
    ensures { Pieced f.now (as_piece (after_index name (indexing_of x) (part f.now at upto))) result }
{
    if alone(f, at, upto, LETTER_C) {
        let count = Count {
            name,
            index: Some(x),
        };
        return Some(Piece::Element(Element::Count(count)));
    }
    let (y, p) = range_end(f, at, upto, x)?;
    after_range(f, p, upto, name, y)
}

fn name_of(a: u8, b: u8) -> u16
    ensures { result ≡ name_of a b }
{
    u16::from_be_bytes([a, b])
}

fn series_to(f: &[u8], at: usize, upto: usize, name: u16) -> Option<Piece>
    requires { (at ≤ upto) × (upto ≤ length f.now) }
    ensures { Pieced f.now (as_piece (series_to name (part f.now at upto))) result }
{
    if upto - at != 2 {
        return None;
    }
    let a = f[at];
    let b = f[at + 1];
    if is_name(a, b) {
        Some(Piece::Element(Element::Series(name, name_of(a, b))))
    } else {
        None
    }
}

fn after_name(f: &[u8], at: usize, upto: usize, name: u16) -> Option<Piece>
    requires { (at ≤ upto) × (upto ≤ length f.now) }
    ensures { Pieced f.now (as_piece (after_name name (part f.now at upto))) result }
{
    if at == upto {
        return Some(Piece::Element(Element::Named(Named::bare(name))));
    }
    if alone(f, at, upto, LETTER_C) {
        let count = Count { name, index: None };
        return Some(Piece::Element(Element::Count(count)));
    }
    if f[at] == HYPHEN {
        return series_to(f, at + 1, upto, name);
    }
    let (x, p) = index_first(f, at, upto)?;
    after_index(f, p, upto, name, x)
}

#[tactic(auto, using(crate::proofs::PieceLaws::number_zero))]
fn after_number(f: &[u8], at: usize, upto: usize, n: u16) -> Option<Piece>
    requires { (at ≤ upto) × (upto ≤ length f.now) }
    ensures { Pieced f.now (after_number n (part f.now at upto)) result }
{
    if at == upto {
        if n > rules::GREATEST_LENGTH {
            return None;
        }
        return Some(Piece::Length(n));
    }
    if n == 0 {
        return None;
    }
    if n > rules::LONGEST_BLANKS {
        return None;
    }
    if alone(f, at, upto, LETTER_X) {
        Some(Piece::Element(Element::Blanks(n as u8)))
    } else {
        None
    }
}

fn no_apostrophe(f: &[u8], at: usize, upto: usize) -> bool
    requires { (at ≤ upto) × (upto ≤ length f.now) }
    ensures { result ≡ no_apostrophe (part f.now at upto) }
{
    for i in at..upto {
        if f[i] == APOSTROPHE {
            return false;
        }
    }
    true
}

fn text_piece(f: &[u8], at: usize, upto: usize) -> Option<Piece>
    requires { (at < upto) × (upto ≤ length f.now) }
    ensures { Pieced f.now (text_piece (part f.now at upto)) result }
{
    let last = upto - 1;
    if f[last] != APOSTROPHE {
        return None;
    }
    if last == at {
        return None;
    }
    if last - at > rules::LONGEST_TEXT {
        return None;
    }
    if no_apostrophe(f, at, last) {
        Some(Piece::Element(Element::Text(at, last)))
    } else {
        None
    }
}

// A piece of one byte: a digit is a length, a letter a format.
fn single(b: u8) -> Option<Piece>
    ensures { (f : Bytes) → Pieced f (piece (b ∷ [])) result }
{
    if is_digit(b) {
        return Some(Piece::Length(digit_of(b)));
    }
    if is_override(b) {
        Some(Piece::Format(b))
    } else {
        None
    }
}

fn number_piece(f: &[u8], at: usize, upto: usize) -> Option<Piece>
    requires { (at ≤ upto) × (upto ≤ length f.now) }
    ensures { Pieced f.now (number_piece (part f.now at upto)) result }
{
    let (n, p) = number_first(f, at, upto)?;
    after_number(f, p, upto, n)
}

pub fn piece_at(f: &[u8], at: usize, upto: usize) -> Option<Piece>
    requires { (at ≤ upto) × (upto ≤ length f.now) }
    ensures { Pieced f.now (piece (part f.now at upto)) result }
{
    if at == upto {
        return None;
    }
    let a = f[at];
    if upto - at == 1 {
        return single(a);
    }
    if a == APOSTROPHE {
        return text_piece(f, at + 1, upto);
    }
    if is_digit(a) {
        return number_piece(f, at, upto);
    }
    let b = f[at + 1];
    if is_name(a, b) {
        after_name(f, at + 2, upto, name_of(a, b))
    } else {
        None
    }
}
