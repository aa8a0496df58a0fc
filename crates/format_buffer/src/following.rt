// What may follow an element: another element; after a name also a length, a format, or both in that order.
// `end` is the place of the comma or period after the element.
ghost use Rattle.std.specs.Prelude.{◌≡◌, true, None, ◌≤◌, ◌<◌, length, drop, get_or};
ghost use Rattle.rules.specs.Characters.{period};
ghost use Rattle.rules.specs.Limits.{greatest_length};
ghost use Rattle.rules.specs.Format.{piece};
ghost use Rattle.format_buffer.specs.Elements.{element_of, sound, Small};
ghost use Rattle.format_buffer.specs.Part.{part};
ghost use Rattle.format_buffer.specs.Pieces.{unfinished, trails};
ghost use Rattle.format_buffer.specs.Texts.{pending, elements_first};
ghost use Rattle.format_buffer.specs.Syntax.{SteppedUpto, then_format, then_completed};

use super::numbers::number_first;
use super::texts::bounds_at;
use super::{Element, Named};
use characters::{PERIOD, is_digit, is_override};

// The letters lie from C1 to E9, and the digits after them.
const FIRST_LETTER: u8 = 0xC1;

const LAST_LETTER: u8 = 0xE9;

// What can follow a name: a length, a format, neither (an element, if it is good), or bad syntax.
#[derive(Clone, Copy)]
pub enum Trailer {
    Length(u16),
    Format(u8),
    Neither,
}

// Whether the text at a place begins with a letter and then a letter or a digit, as no length and no format does. `false` tells nothing.
fn begins_longer(f: &[u8], at: usize) -> bool
    requires { at ≤ length f.now }
    ensures { result ≡ true → elements_first (pending (drop at f.now)) }
{
    if f.len() - at < 2 {
        return false;
    }
    let first = f[at];
    if first < FIRST_LETTER {
        return false;
    }
    if first > LAST_LETTER {
        return false;
    }
    f[at + 1] >= FIRST_LETTER
}

// What the bytes from one place up to another are after a name. Whether `Neither` is a good element is for the next step to find.
fn trailer_at(f: &[u8], first: usize, last: usize) -> Option<Trailer>
    requires { (first ≤ last) × (last ≤ length f.now) }
    ensures { trails (piece (part f.now first last)) result }
{
    if first == last {
        return None;
    }
    let a = f[first];
    if is_digit(a) {
        let (n, p) = number_first(f, first, last)?;
        if p != last {
            return Some(Trailer::Neither);
        }
        if n > rules::GREATEST_LENGTH {
            return None;
        }
        return Some(Trailer::Length(n));
    }
    if last - first == 1 {
        if is_override(a) {
            return Some(Trailer::Format(a));
        }
        return None;
    }
    Some(Trailer::Neither)
}

// A format may follow the name, which has a length.
fn format_after(f: &[u8], end: usize, n: Named, size: u16) -> Option<(Element, usize)>
    requires { (end < length f.now) × Small n × (n.letter ≡ None) × (size ≤ greatest_length) }
    ensures { SteppedUpto f.now end (then_format f.now end n size) result }
{
    let named = n.with_length(size);
    if f[end] == PERIOD {
        return Some((Element::Named(named), end));
    }
    if begins_longer(f, end + 1) {
        return Some((Element::Named(named), end));
    }
    let b = bounds_at(f, end + 1);
    match trailer_at(f, b.first, b.last)? {
        Trailer::Format(c) => Some((Element::Named(named.with_format(c)), b.end)),
        Trailer::Neither => Some((Element::Named(named), end)),
        Trailer::Length(_) => None,
    }
}

// The length or the format that follows the name, if one does. It stands by itself, so that a name with nothing after it is told fast.
#[inline(never)]
fn trailers_after(f: &[u8], end: usize, n: Named) -> Option<(Element, usize)>
    requires { (end < length f.now) × Small n × (n.length ≡ None) × (n.letter ≡ None) × (get_or f.now end 0 ≡ period → ⊥) }
    ensures { SteppedUpto f.now end (then_completed f.now end (element_of f.now (Element.Named n))) result }
{
    let b = bounds_at(f, end + 1);
    match trailer_at(f, b.first, b.last)? {
        Trailer::Length(size) => format_after(f, b.end, n, size),
        Trailer::Format(c) => Some((Element::Named(n.with_format(c)), b.end)),
        Trailer::Neither => Some((Element::Named(n), end)),
    }
}

// A length or a format may follow the name.
fn length_after(f: &[u8], end: usize, n: Named) -> Option<(Element, usize)>
    requires { (end < length f.now) × Small n × (n.length ≡ None) × (n.letter ≡ None) }
    ensures { SteppedUpto f.now end (then_completed f.now end (element_of f.now (Element.Named n))) result }
{
    if f[end] == PERIOD {
        return Some((Element::Named(n), end));
    }
    if begins_longer(f, end + 1) {
        return Some((Element::Named(n), end));
    }
    trailers_after(f, end, n)
}

// Completes an element with the length and format that follow it, if any; anything else there is bad syntax.
pub fn completed(f: &[u8], end: usize, e: Element) -> Option<(Element, usize)>
    requires { (end < length f.now) × sound f.now e × unfinished e }
    ensures { SteppedUpto f.now end (then_completed f.now end (element_of f.now e)) result }
{
    match e {
        Element::Named(n) => length_after(f, end, n),
        _ => Some((e, end)),
    }
}
