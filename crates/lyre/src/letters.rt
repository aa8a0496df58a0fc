// Printable characters in ASCII and in EBCDIC (code page 037).
use crate::{hexadecimal, plain};
use std::io;

const FIRST: u8 = b' ';

const LAST: u8 = b'~';

const CHARACTERS: usize = 95;

// The EBCDIC codes of the characters from the blank to the tilde, in the order of ASCII.
const CODES: [u8; CHARACTERS] = *b"\
    \x40\x5A\x7F\x7B\x5B\x6C\x50\x7D\x4D\x5D\x5C\x4E\x6B\x60\x4B\x61\
    \xF0\xF1\xF2\xF3\xF4\xF5\xF6\xF7\xF8\xF9\x7A\x5E\x4C\x7E\x6E\x6F\
    \x7C\xC1\xC2\xC3\xC4\xC5\xC6\xC7\xC8\xC9\xD1\xD2\xD3\xD4\xD5\xD6\
    \xD7\xD8\xD9\xE2\xE3\xE4\xE5\xE6\xE7\xE8\xE9\xBA\xE0\xBB\xB0\x6D\
    \x79\x81\x82\x83\x84\x85\x86\x87\x88\x89\x91\x92\x93\x94\x95\x96\
    \x97\x98\x99\xA2\xA3\xA4\xA5\xA6\xA7\xA8\xA9\xC0\x4F\xD0\xA1";

// The EBCDIC code of a character, if it is printable.
pub(crate) fn ebcdic_of(c: u8) -> Option<u8> {
    if c < FIRST || LAST < c {
        return None;
    }
    Some(CODES[usize::from(c - FIRST)])
}

// The character of an EBCDIC code, if it is a printable one.
fn ascii_of(code: u8) -> Option<u8> {
    for i in 0..CHARACTERS {
        if CODES[i] == code {
            return Some(FIRST + i as u8);
        }
    }
    None
}

// One character, or its code in hexadecimal.
fn write_letter(to: &impl Print, code: u8) -> io::Result<()> {
    match ascii_of(code) {
        Some(c) => plain::write(to, &[c]),
        None => {
            plain::write(to, b"\\x")?;
            hexadecimal::write_byte(to, code)
        }
    }
}

pub(crate) fn write_text(to: &impl Print, text: &[u8]) -> io::Result<()> {
    for &code in text {
        write_letter(to, code)?;
    }
    Ok(())
}

// The same between quotation marks: a quotation mark and a backslash have a backslash before them.
fn say_letter(out: &impl Print, code: u8) -> io::Result<()> {
    if let Some(b'"' | b'\\') = ascii_of(code) {
        plain::say(out, b"\\")?;
    }
    write_letter(out, code)
}

fn say_letters(out: &impl Print, text: &[u8]) -> io::Result<()> {
    for &code in text {
        say_letter(out, code)?;
    }
    Ok(())
}

pub(crate) fn say_quoted(out: &impl Print, text: &[u8]) -> io::Result<()> {
    plain::say(out, b"\"")?;
    say_letters(out, text)?;
    plain::say(out, b"\"")
}

// A name, which is two letters.
pub(crate) fn say_name(out: &impl Print, name: u16) -> io::Result<()> {
    write_text(out, &name.to_be_bytes())
}
