// The values and counts of a record, in plain digits and text, as reads of one occurrence or one count give them.
ghost use Rattle.std.specs.Prelude.{◌≤◌, ◌<◌, length};
ghost use Rattle.tables.specs.Entries.{Valid, entries_of};

use crate::elements::SIZE;
use crate::{elements, hexadecimal, letters, plain};
use std::io;
use value_formats::Format;

// Room for the longest value, with its length byte.
const ROOM: usize = 256;

// Minus as a read writes it.
const MINUS: u8 = 0xD;

// Whether entry i is named with an occurrence: it lies in a periodic group, and is not that group.
pub(crate) fn has_occurrences(t: &[u8], i: usize) -> bool
    requires { Valid t.now × (i < length (entries_of t.now)) }
{
    !tables::periodic_at(t, i) && tables::inside(t, i)
}

// The format of value k of entry i in occurrence o.
fn occurrence(t: &[u8], i: usize, o: usize, k: usize) -> [u8; SIZE]
    requires { Valid t.now × (i < length (entries_of t.now)) }
{
    let e = tables::entry_at(t, i);
    let f = elements::named(e.name);
    if has_occurrences(t, i) {
        let f = elements::indexed(f, o);
        if e.multiple {
            return elements::bracketed(f, k);
        }
        return f;
    }
    if e.multiple {
        return elements::indexed(f, k);
    }
    f
}

// The count that a format names.
fn count_of(t: &[u8], record: &[u8], f: [u8; SIZE]) -> usize
    ensures { result < 256 }
{
    let mut room = [0u8; 1];
    let _ = lyrecanyon::read(t, record, &f, &mut room);
    usize::from(room[0])
}

// The count of entry i, a periodic group or an MU field, which may stand in occurrence o of one.
pub(crate) fn count(t: &[u8], record: &[u8], i: usize, o: usize) -> usize
    requires { Valid t.now × (i < length (entries_of t.now)) }
    ensures { result < 256 }
{
    let e = tables::entry_at(t, i);
    let f = elements::named(e.name);
    if has_occurrences(t, i) {
        return count_of(t, record, elements::counted_in(elements::indexed(f, o)));
    }
    count_of(t, record, elements::counted(f))
}

// The place of the first digit before the last that is not 0, or of the last.
fn first_digit(digits: &[u8], last: usize) -> usize
    requires { last < length digits.now }
    ensures { result ≤ last }
{
    for i in 0..last {
        if digits[i] % 16 != 0 {
            return i;
        }
    }
    last
}

fn say_digit(out: &impl Print, b: u8) -> io::Result<()> {
    plain::say(out, &[b'0' + b % 16])
}

fn say_digits(out: &impl Print, digits: &[u8]) -> io::Result<()> {
    for &b in digits {
        say_digit(out, b)?;
    }
    Ok(())
}

// Unpacked digits, without leading zeros. The sign is in the high half of the last.
fn say_unpacked(out: &impl Print, digits: &[u8]) -> io::Result<()> {
    let n = digits.len();
    if n == 0 {
        return Ok(());
    }
    let last = n - 1;
    if digits[last] / 16 == MINUS {
        plain::say(out, b"-")?;
    }
    let first = first_digit(digits, last);
    say_digits(out, &digits[first..])
}

fn say_text(out: &impl Print, t: &[u8], record: &[u8], f: [u8; SIZE]) -> io::Result<()> {
    let f = elements::variable(f);
    let mut room = [0u8; ROOM];
    let used = lyrecanyon::read(t, record, &f, &mut room).unwrap_or(0);
    if 0 < used {
        letters::say_quoted(out, &room[1..used])?;
    }
    Ok(())
}

fn say_stored(out: &impl Print, t: &[u8], record: &[u8], f: [u8; SIZE]) -> io::Result<()> {
    let mut room = [0u8; ROOM];
    let used = lyrecanyon::read(t, record, &f, &mut room).unwrap_or(0);
    plain::say(out, b"hexadecimal ")?;
    hexadecimal::say_bytes(out, &room[..used])
}

// A number; one that does not convert, as it is stored.
fn say_number(out: &impl Print, t: &[u8], record: &[u8], f: [u8; SIZE]) -> io::Result<()> {
    let digits = elements::unpacked(f);
    let mut room = [0u8; ROOM];
    match lyrecanyon::read(t, record, &digits, &mut room) {
        Ok(used) => say_unpacked(out, &room[..used]),
        Err(_) => say_stored(out, t, record, f),
    }
}

// Value k of entry i in occurrence o.
pub(crate) fn say_value(
    out: &impl Print,
    t: &[u8],
    record: &[u8],
    i: usize,
    o: usize,
    k: usize,
) -> io::Result<()>
    requires { Valid t.now × (i < length (entries_of t.now)) }
{
    let e = tables::entry_at(t, i);
    let f = occurrence(t, i, o, k);
    if e.format == Some(Format::Alpha) {
        say_text(out, t, record, f)?;
    } else {
        say_number(out, t, record, f)?;
    }
    Ok(())
}
