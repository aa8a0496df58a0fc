// The words of the command line, and the files that they name, each into an area, which keeps its length. Where a read or a message fails
// the area may hold any bytes.
ghost use Rattle.std.specs.Prelude.{◌≡◌, ◌≤◌, length, IfOk, IfSome};

use crate::{hexadecimal, letters, plain};
use std::env::FillError;
use std::io::{ErrorKind, Read};
use std::rt::{Env, Files};
use std::{fs, io, str};

// The first byte of a table and of a record.
const HEAD: u8 = 0xE5;

// The longest name of a file that is taken.
pub const PATH: usize = 4096;

// How many bytes a word or a file gave to the front of an area; none where a message has said what is wrong.
pub(crate) type Taken = io::Result<Option<usize>>;

// Whether a word is this one.
pub(crate) fn same(word: &[u8], text: &[u8]) -> bool {
    word.len() == text.len() && buffer::stands_at(word, 0, text)
}

// How many words the command line has, the program's own name among them.
pub(crate) fn count(env: &impl Env) -> usize {
    for i in 0..usize::MAX {
        if let Err(FillError::NotPresent) = env.arg(i, &mut []) {
            return i;
        }
    }
    usize::MAX
}

// Word i to an area, and its length; 0 where there is none, or where it is longer than the area.
pub(crate) fn short(env: &impl Env, i: usize, area: &mut [u8]) -> usize
    ensures { result ≤ length area.new }
{
    env.arg(i, area).unwrap_or(0)
}

// Whether word i is this one.
pub(crate) fn is(env: &impl Env, i: usize, text: &[u8]) -> bool {
    let mut area = [0u8; 8];
    let used = short(env, i, &mut area);
    same(&area[..used], text)
}

// Word i, as it is.
pub(crate) fn word(env: &impl Env, err: &impl Print, i: usize, area: &mut [u8]) -> Taken
    ensures given { IfOk result (λ given. IfSome given (λ used. used ≤ length area.new)) }
    ensures kept { length area.new ≡ length area.old }
{
    if let Ok(used) = env.arg(i, area) {
        return Ok(Some(used));
    }
    plain::complain(
        err,
        b"a word is too long: a format has up to 8,192 characters, the values up to 131,072",
    )?;
    Ok(None)
}

// Each character of a format in EBCDIC, in its place.
fn translate(area: &mut [u8], used: usize) -> bool
    requires { used ≤ length area.old }
    ensures { used ≤ length area.new }
{
    for i in 0..used {
        let Some(code) = letters::ebcdic_of(area[i]) else {
            return false;
        };
        area[i] = code;
    }
    true
}

// Word i, a format.
pub(crate) fn format(env: &impl Env, err: &impl Print, i: usize, area: &mut [u8]) -> Taken
    ensures given { IfOk result (λ given. IfSome given (λ used. used ≤ length area.new)) }
    ensures kept { length area.new ≡ length area.old }
{
    let Some(used) = word(env, err, i, area)? else {
        return Ok(None);
    };
    if translate(area, used) {
        return Ok(Some(used));
    }
    plain::complain(
        err,
        b"the format has a character that EBCDIC 037 does not print: use printable ASCII",
    )?;
    Ok(None)
}

// Word i, bytes in hexadecimal.
pub(crate) fn bytes(env: &impl Env, err: &impl Print, i: usize, area: &mut [u8]) -> Taken
    ensures given { IfOk result (λ given. IfSome given (λ used. used ≤ length area.new)) }
    ensures kept { length area.new ≡ length area.old }
{
    let Some(used) = word(env, err, i, area)? else {
        return Ok(None);
    };
    let bytes = hexadecimal::decode(area, used);
    if bytes.is_none() {
        plain::complain(
            err,
            b"the values are not hexadecimal: use pairs of digits, as in 'F5F0 00150F'",
        )?;
    }
    Ok(bytes)
}

// The name of a file as text, which the system's calls take.
pub(crate) fn name(path: &[u8]) -> io::Result<&str> {
    match str::from_utf8(path) {
        Ok(text) => Ok(text),
        Err(_) => Err(io::Error::new(ErrorKind::InvalidFilename, "The name is not UTF-8")),
    }
}

// A file by its name.
fn open<R: Files>(rt: &R, path: &[u8]) -> io::Result<R::File> {
    fs::open(rt, name(path)?)
}

// Reads to the front of an area, until it is full or nothing more comes; how many bytes came.
fn read_full(source: &mut impl Read, area: &mut [u8]) -> io::Result<usize>
    ensures read { IfOk result (λ used. used ≤ length area.new) }
    ensures kept { length area.new ≡ length area.old }
{
    let mut done = 0;
    while done < area.len() {
        let got = source.read(&mut area[done..])?;
        if got == 0 {
            break;
        }
        done += got;
    }
    Ok(done)
}

// What was read of a file. One that fills the area may be longer.
fn loaded(err: &impl Print, path: &[u8], area: &[u8], read: io::Result<usize>) -> Taken
    requires { IfOk read (λ used. used ≤ length area.now) }
    ensures { IfOk result (λ given. IfSome given (λ used. used ≤ length area.now)) }
{
    let used = read.unwrap_or(0);
    if used == 0 {
        plain::complain_of(err, path, b" is empty or cannot be read")?;
        return Ok(None);
    }
    if used == area.len() {
        plain::complain_of(err, path, b" is too long: a file has up to 65,535 bytes")?;
        return Ok(None);
    }
    Ok(Some(used))
}

// What a file holds by its name, or standard input by `-`, as it is.
fn load(rt: &(impl Files + io::Input), err: &impl Print, path: &[u8], area: &mut [u8]) -> Taken
    ensures given { IfOk result (λ given. IfSome given (λ used. used ≤ length area.new)) }
    ensures kept { length area.new ≡ length area.old }
{
    if same(path, b"-") {
        let read = read_full(&mut rt.reader(), area);
        return loaded(err, path, area, read);
    }
    match open(rt, path) {
        Ok(mut file) => {
            let read = read_full(&mut file, area);
            loaded(err, path, area, read)
        }
        Err(why) => {
            plain::fail(err, path, why)?;
            plain::complain_of(
                err,
                path,
                b" cannot be opened: name a file, or - for standard input",
            )?;
            Ok(None)
        }
    }
}

fn is_binary(bytes: &[u8]) -> bool {
    bytes.first() == Some(&HEAD)
}

// Word i, a file with a table or a record, in binary or in hexadecimal.
pub(crate) fn file(
    rt: &(impl Env + Files + io::Input),
    err: &impl Print,
    i: usize,
    area: &mut [u8],
) -> Taken
    ensures given { IfOk result (λ given. IfSome given (λ used. used ≤ length area.new)) }
    ensures kept { length area.new ≡ length area.old }
{
    let mut name = [0u8; PATH];
    let Some(end) = word(rt, err, i, &mut name)? else {
        return Ok(None);
    };
    let path = &name[..end];
    let Some(used) = load(rt, err, path, area)? else {
        return Ok(None);
    };
    if is_binary(area) {
        return Ok(Some(used));
    }
    let bytes = hexadecimal::decode(area, used);
    if bytes.is_none() {
        plain::complain_of(
            err,
            path,
            b" is neither binary, with E5 first, nor hexadecimal digits in pairs",
        )?;
    }
    Ok(bytes)
}
