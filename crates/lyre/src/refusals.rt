// A refusal in words: its number, its meaning, and the element that it is about.
ghost use Rattle.std.specs.Prelude.{◌≤◌, ◌<◌, length};
ghost use Rattle.rules.specs.Limits.{longest_format};

use crate::asking::Service;
use crate::{asking, letters, plain};
use characters::PERIOD;
use format_buffer::pieces::Piece;
use rules::Refusal;
use std::io;

fn tell(err: &impl Print, text: &[u8]) -> io::Result<()> {
    plain::write(err, text)
}

// Where the element at a place stops: its comma or its period; the end of the format where its syntax is bad.
pub(crate) fn element_end(f: &[u8], at: usize) -> usize
    requires { at ≤ length f.now }
    ensures { (at ≤ result) × (result ≤ length f.now) }
{
    match format_buffer::syntax::next(f, at) {
        Some((_, stop)) => stop,
        None => f.len(),
    }
}

// Element n, which stands in the format from one place up to another, as it is written.
pub(crate) fn write_element(
    to: &impl Print,
    f: &[u8],
    at: usize,
    stop: usize,
    n: usize,
) -> io::Result<()>
    requires { (at ≤ stop) × (stop ≤ length f.now) }
{
    let b = format_buffer::texts::bounds_at(f, at);
    let first = b.first;
    plain::write(to, b"element ")?;
    plain::write_number(to, n)?;
    if first < stop {
        plain::write(to, b": ")?;
        letters::write_text(to, &f[first..stop])?;
        plain::write(to, b"\n")?;
    } else {
        plain::write(to, b" is empty\n")?;
    }
    Ok(())
}

// Whether a period ends the format: one that stands in no text.
fn has_period(f: &[u8]) -> bool {
    let mut at = 0;
    loop {
        let b = format_buffer::texts::bounds_at(f, at);
        let end = b.end;
        if end == f.len() {
            return false;
        }
        if format_buffer::syntax::is_last(f, end) {
            return true;
        }
        at = end + 1;
    }
}

// The element at a place where the syntax is bad. Where its own characters are good, what follows it is not.
fn tell_bad(err: &impl Print, f: &[u8], at: usize, n: usize) -> io::Result<()>
    requires { at ≤ length f.now }
{
    let b = format_buffer::texts::bounds_at(f, at);
    let piece = format_buffer::pieces::piece_at(f, b.first, b.last);
    tell(err, b"  ")?;
    if let Some(Piece::Element(_)) = piece {
        tell(err, b"what follows ")?;
    }
    write_element(err, f, at, b.end, n)
}

// The first element whose syntax is bad.
fn tell_first_bad(err: &impl Print, f: &[u8]) -> io::Result<()>
    requires { length f.now ≤ longest_format }
{
    let mut at = 0;
    let mut n = 1;
    loop {
        let stop = element_end(f, at);
        if stop == f.len() {
            return tell_bad(err, f, at, n);
        }
        if format_buffer::syntax::is_last(f, stop) {
            return Ok(());
        }
        at = stop + 1;
        n += 1;
    }
}

// What is bad about the syntax.
fn tell_syntax(err: &impl Print, f: &[u8]) -> io::Result<()> {
    if rules::LONGEST_FORMAT < f.len() {
        return tell(err, b"  it is over 2,048 bytes\n");
    }
    if has_period(f) {
        return tell_first_bad(err, f);
    }
    tell(err, b"  no period ends it\n")
}

// The elements before a place, ended by a period; how many bytes they take.
fn put_first(f: &[u8], stop: usize, area: &mut [u8]) -> usize
    requires { (stop < length f.now) × (stop < length area.old) }
    ensures { result ≤ length area.new }
{
    buffer::put(&f[..stop], area, 0);
    area[stop] = PERIOD;
    stop + 1
}

// The number of the call whose format is the elements before a place.
fn number_upto(
    service: Service,
    t: &[u8],
    record: &[u8],
    f: &[u8],
    values: &[u8],
    stop: usize,
) -> u8
    requires { (stop < length f.now) × (length f.now ≤ longest_format) }
{
    let mut first = [0u8; rules::LONGEST_FORMAT];
    let mut room = [0u8; rules::LONGEST_ITEMS];
    let end = put_first(f, stop, &mut first);
    lyrecanyon::number(asking::ask(service, t, record, &first[..end], values, &mut room))
}

// The first element with which the call is refused with this number: the refusals that come before it are those of earlier elements.
fn tell_element(
    err: &impl Print,
    service: Service,
    t: &[u8],
    record: &[u8],
    f: &[u8],
    values: &[u8],
    number: u8,
) -> io::Result<()>
    requires { length f.now ≤ longest_format }
{
    let mut at = 0;
    let mut n = 1;
    loop {
        let stop = element_end(f, at);
        if stop == f.len() {
            return Ok(());
        }
        if number_upto(service, t, record, f, values, stop) == number {
            tell(err, b"  ")?;
            return write_element(err, f, at, stop, n);
        }
        if format_buffer::syntax::is_last(f, stop) {
            return Ok(());
        }
        at = stop + 1;
        n += 1;
    }
}

// How long the value is that a read did not hold, where a length is said.
fn tell_needed(err: &impl Print, needed: u8) -> io::Result<()> {
    if 0 < needed {
        tell(err, b"  needs length ")?;
        plain::write_number(err, needed as usize)?;
        tell(err, b"\n")?;
    }
    Ok(())
}

// Refusals 3 to 9 are about an element. A format that is too long is refused with 3.
pub(crate) fn refuse(
    err: &impl Print,
    service: Service,
    t: &[u8],
    record: &[u8],
    f: &[u8],
    values: &[u8],
    x: Refusal,
) -> io::Result<()> {
    tell(err, b"refused with ")?;
    err.print(x.number())?;
    tell(err, b": ")?;
    err.println(x)?;
    match x {
        Refusal::BadSyntax => tell_syntax(err, f),
        Refusal::BadTable | Refusal::BadRecord | Refusal::NoRoom => Ok(()),
        _ => {
            if f.len() <= rules::LONGEST_FORMAT {
                tell_element(err, service, t, record, f, values, x.number())?;
                tell_needed(err, x.length())?;
            }
            Ok(())
        }
    }
}
