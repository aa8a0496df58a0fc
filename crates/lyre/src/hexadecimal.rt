// Bytes as pairs of hexadecimal digits.
ghost use Rattle.std.specs.Prelude.{◌≡◌, ◌+◌, ◌≤◌, ◌<◌, length, IfSome};

use crate::plain;
use std::io;

fn glyph(d: u8) -> u8
    requires { d < 16 }
{
    if d < 10 { b'0' + d } else { b'A' - 10 + d }
}

pub(crate) fn write_byte(to: &impl Print, b: u8) -> io::Result<()> {
    plain::write(to, &[glyph(b / 16), glyph(b % 16)])
}

pub(crate) fn say_bytes(out: &impl Print, bytes: &[u8]) -> io::Result<()> {
    for &b in bytes {
        write_byte(out, b)?;
    }
    Ok(())
}

pub(crate) fn say_line(out: &impl Print, bytes: &[u8]) -> io::Result<()> {
    say_bytes(out, bytes)?;
    plain::say(out, b"\n")
}

// The value of a digit.
fn digit(c: u8) -> Option<u8>
    ensures { IfSome result (λ d. d < 16) }
{
    match c {
        b'0'..=b'9' => Some(c - b'0'),
        b'A'..=b'F' => Some(c - b'A' + 10),
        b'a'..=b'f' => Some(c - b'a' + 10),
        _ => None,
    }
}

fn is_blank(c: u8) -> bool {
    matches!(c, b' ' | b'\n' | b'\r' | b'\t')
}

// The byte that a pair of digits at a place makes.
fn pair(text: &[u8], at: usize, end: usize) -> Option<u8>
    requires { (at < end) × (end ≤ length text.now) }
    ensures { IfSome result (λ b. at + 2 ≤ end) }
{
    if end - at < 2 {
        return None;
    }
    let high = digit(text[at])?;
    let low = digit(text[at + 1])?;
    Some(high * 16 + low)
}

// How many bytes the first `used` characters of an area spell, which come to its front: digits in pairs, with blanks and line ends between them.
pub(crate) fn decode(area: &mut [u8], used: usize) -> Option<usize>
    requires { used ≤ length area.old }
    ensures made { IfSome result (λ made. made ≤ length area.new) }
    ensures kept { length area.new ≡ length area.old }
{
    let mut at = 0;
    let mut made = 0;
    while at < used {
        if is_blank(area[at]) {
            at += 1;
        } else {
            area[made] = pair(area, at, used)?;
            made += 1;
            at += 2;
        }
    }
    Some(made)
}
