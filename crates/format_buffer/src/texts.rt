// The texts of a format, separated by commas and ended by a period; each, without the spaces around it, is a piece.
ghost use Rattle.std.specs.Prelude.{◌≡◌, false, ◌+◌, ◌≤◌, length, drop};
ghost use Rattle.rules.specs.Values.{strip};
ghost use Rattle.rules.specs.Format.{turned, ends, skip_spaces};
ghost use Rattle.format_buffer.specs.Part.{part};
ghost use Rattle.format_buffer.specs.Texts.{extent, Narrowed, Bounded, Looked};

use super::pieces::{Piece, piece_at};
use characters::{APOSTROPHE, COMMA, PERIOD, SPACE};

// The piece of the text at a place, and where its comma or period stands.
#[derive(Clone, Copy)]
pub struct PieceAt {
    pub piece: Option<Piece>,
    pub end: usize,
}

// A text from one place up to another, and where its comma or period stands.
#[derive(Clone, Copy)]
pub struct Bounds {
    pub first: usize,
    pub last: usize,
    pub end: usize,
}

fn turn(inside: bool, b: u8) -> bool
    ensures { result ≡ turned inside b }
{
    inside != (b == APOSTROPHE)
}

fn is_end(inside: bool, b: u8) -> bool
    ensures { result ≡ ends inside b }
{
    !inside && (b == COMMA || b == PERIOD)
}

// Where the text from `at` on ends: at a comma or a period outside apostrophes, or at the end of the slice.
fn text_end(f: &[u8], at: usize) -> usize
    requires { at ≤ length f.now }
    ensures { (result ≡ at + extent false (drop at f.now)) × (result ≤ length f.now) }
{
    let mut inside = false;
    for i in at..f.len() {
        let b = f[i];
        if is_end(inside, b) {
            return i;
        }
        inside = turn(inside, b);
    }
    f.len()
}

// The place after the last byte that is no space.
fn last_place(f: &[u8], at: usize, upto: usize) -> usize
    requires { (at ≤ upto) × (upto ≤ length f.now) }
    ensures { Narrowed at upto result (strip (part f.now at upto)) (part f.now at result) }
{
    for i in (at..upto).rev() {
        if f[i] != SPACE {
            return i + 1;
        }
    }
    at
}

// The place of the first byte that is no space.
fn first_place(f: &[u8], at: usize, upto: usize) -> usize
    requires { (at ≤ upto) × (upto ≤ length f.now) }
    ensures { Narrowed at upto result (skip_spaces (part f.now at upto)) (part f.now result upto) }
{
    for i in at..upto {
        if f[i] != SPACE {
            return i;
        }
    }
    upto
}

// Where the text from a place on stands without the spaces around it, and where its comma or period stands. If it has none, the
// text is empty.
pub fn bounds_at(f: &[u8], at: usize) -> Bounds
    requires { at ≤ length f.now }
    ensures { Bounded f.now at result }
{
    let end = text_end(f, at);
    if end == f.len() {
        return Bounds {
            first: at,
            last: at,
            end,
        };
    }
    let last = last_place(f, at, end);
    let first = first_place(f, at, last);
    Bounds { first, last, end }
}

pub fn text_at(f: &[u8], at: usize) -> PieceAt
    requires { at ≤ length f.now }
    ensures { Looked f.now at result }
{
    let b = bounds_at(f, at);
    let piece = piece_at(f, b.first, b.last);
    PieceAt { piece, end: b.end }
}
