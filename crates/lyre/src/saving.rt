// A new record to standard output, or to a file: as a new file that takes the place of the old one once it is whole.
// Where the call has ended with that, it is said how; else words about the record may follow.
ghost use Rattle.std.specs.Prelude.{◌+◌};

use crate::plain::Ended;
use crate::{hexadecimal, plain, words};
use std::fs::{OpenFile, OpenOptions};
use std::io::Write;
use std::rt::{Env, Files};
use std::{fs, io};

// The room for a path, which leaves enough for the new file's.
const PATH: usize = 4000;

fn failed(err: &impl Print, path: &[u8], why: io::Error) -> io::Result<bool> {
    plain::fail(err, path, why)?;
    plain::complain_of(err, path, b" cannot be written, and nothing was changed")?;
    Ok(false)
}

// Devices and the like cannot be replaced by a file.
fn is_special(path: &[u8]) -> bool {
    path.starts_with(b"/dev/")
}

// A new file, where nothing has its name.
fn create<R: Files>(rt: &R, path: &[u8]) -> io::Result<R::File> {
    let mut options = OpenOptions::new();
    options.write(true).create_new(true);
    options.open(rt, words::name(path)?)
}

// Writes a new file, and sees that the system keeps it.
fn fill(mut file: impl Write + OpenFile + Drop, record: &[u8]) -> io::Result<()> {
    file.write_all(record)?;
    file.sync_all()
}

fn rename(rt: &impl Files, from: &[u8], to: &[u8]) -> io::Result<()> {
    fs::rename(rt, words::name(from)?, words::name(to)?)
}

// Takes a new file away again. If that fails too, the file stays where it is.
fn remove(rt: &impl Files, path: &[u8]) {
    if let Ok(path) = words::name(path) {
        let _ = fs::remove_file(rt, path);
    }
}

// The new file takes the place of the old one, or goes away again.
fn put_in_place(
    rt: &impl Files,
    out: &impl Print,
    err: &impl Print,
    new: &[u8],
    path: &[u8],
    record: &[u8],
) -> io::Result<bool> {
    if let Err(why) = rename(rt, new, path) {
        let told = failed(err, path, why);
        remove(rt, new);
        return told;
    }
    plain::say_counted(out, record.len(), b"byte")?;
    plain::say(out, b" written to ")?;
    plain::say(out, path)?;
    plain::say(out, b"\n")?;
    Ok(true)
}

fn replace(
    rt: &impl Files,
    out: &impl Print,
    err: &impl Print,
    new: &[u8],
    path: &[u8],
    record: &[u8],
) -> io::Result<bool> {
    match create(rt, new) {
        Ok(file) => {
            if let Err(why) = fill(file, record) {
                let told = failed(err, new, why);
                remove(rt, new);
                return told;
            }
            put_in_place(rt, out, err, new, path, record)
        }
        Err(why) => failed(err, new, why),
    }
}

fn save(
    rt: &impl Files,
    out: &impl Print,
    err: &impl Print,
    path: &[u8],
    record: &[u8],
) -> io::Result<bool> {
    if is_special(path) {
        plain::complain_of(err, path, b" is not a file: use - for standard output")?;
        return Ok(false);
    }
    let mut new = [0u8; words::PATH];
    let end = path.len();
    if end <= PATH {
        buffer::put(path, &mut new, 0);
        buffer::put(b".new", &mut new, end);
        let whole = end + 4;
        return replace(rt, out, err, &new[..whole], path, record);
    }
    plain::complain(err, b"the name of a file is too long")?;
    Ok(false)
}

// To the file of this name; `-` is standard output, where the bytes of the record stand alone for the program that reads them.
fn give_to(
    rt: &impl Files,
    out: &impl Print,
    err: &impl Print,
    path: &[u8],
    record: &[u8],
) -> io::Result<Option<Ended>> {
    if words::same(path, b"-") {
        plain::say(out, record)?;
        return Ok(Some(Ended::Done));
    }
    if save(rt, out, err, path, record)? {
        return Ok(None);
    }
    Ok(Some(Ended::Wrong))
}

// Hexadecimal to standard output; or, where word i is `-o`, to what the next word names.
pub(crate) fn give(
    rt: &(impl Env + Files),
    out: &impl Print,
    err: &impl Print,
    record: &[u8],
    i: usize,
) -> io::Result<Option<Ended>> {
    if words::count(rt) <= i {
        hexadecimal::say_line(out, record)?;
        return Ok(None);
    }
    let mut name = [0u8; words::PATH];
    match words::word(rt, err, i + 1, &mut name)? {
        Some(used) => give_to(rt, out, err, &name[..used], record),
        None => Ok(Some(Ended::Wrong)),
    }
}
