// What is said, to standard output or to standard error, and how the call ended.
ghost use Rattle.std.specs.Prelude.{◌≡◌, ◌≤◌, ◌<◌, length};
ghost use Rattle.std.specs.Process.{exit_status};
ghost use Rattle.lyre.specs.Statuses.{status_of};

use std::io;
use std::io::{Cursor, Write};
use std::process::ExitCode;

// How a call ended: done, refused by the service, or wrong in its words or in a file that cannot be read or written.
#[derive(Clone, Copy)]
pub enum Ended {
    Done,
    Refused,
    Wrong,
}

const BLANKS: [u8; 16] = [b' '; 16];

// The exit status of a call.
pub(crate) fn end(ended: Ended) -> ExitCode
    ensures { exit_status result ≡ status_of ended }
{
    match ended {
        Ended::Done => ExitCode::from(0u8),
        Ended::Refused => ExitCode::from(1u8),
        Ended::Wrong => ExitCode::from(2u8),
    }
}

pub(crate) fn write(to: &impl Print, text: &[u8]) -> io::Result<()> {
    to.write_all(text)
}

pub(crate) fn write_number(to: &impl Print, n: usize) -> io::Result<()> {
    to.print(n)
}

pub(crate) fn say(out: &impl Print, text: &[u8]) -> io::Result<()> {
    write(out, text)
}

pub(crate) fn say_number(out: &impl Print, n: usize) -> io::Result<()> {
    write_number(out, n)
}

// A number and what it counts: `1 byte`, `2 bytes`.
pub(crate) fn say_counted(out: &impl Print, n: usize, one: &[u8]) -> io::Result<()> {
    say_number(out, n)?;
    say(out, b" ")?;
    say(out, one)?;
    if n != 1 {
        say(out, b"s")?;
    }
    Ok(())
}

// The blanks before a line of a level: two for each level after the first.
pub(crate) fn indent(out: &impl Print, level: u8) -> io::Result<()> {
    let blanks = BLANKS;
    let n = 2 * usize::from(level);
    if 2 <= n && n <= 16 {
        return say(out, &blanks[2..n]);
    }
    Ok(())
}

fn complain_after(err: &impl Print, text: &[u8]) -> io::Result<()> {
    write(err, text)?;
    write(err, b"\n")
}

// What is wrong with the words of a command.
pub(crate) fn complain(err: &impl Print, text: &[u8]) -> io::Result<()> {
    write(err, b"lyre: ")?;
    complain_after(err, text)
}

// What is wrong with a file.
pub(crate) fn complain_of(err: &impl Print, path: &[u8], text: &[u8]) -> io::Result<()> {
    write(err, b"lyre: ")?;
    write(err, path)?;
    complain_after(err, text)
}

// Where the system's own number of an error begins, ` (os error 2)`, or the end of the text, which zeros follow.
fn reason_end(text: &[u8]) -> usize
    ensures { result ≤ length text.now }
{
    for i in 0..text.len() {
        if text[i] == 0 || text[i..].starts_with(b" (os error ") {
            return i;
        }
    }
    text.len()
}

// What failed, and why in the system's words: `none: No such file or directory`.
pub(crate) fn fail(err: &impl Print, what: &[u8], why: io::Error) -> io::Result<()> {
    let mut text = Cursor::new([0u8; 320]);
    write!(text, "{why}")?;
    let words = text.get_ref();
    write(err, what)?;
    write(err, b": ")?;
    write(err, &words[..reason_end(words)])?;
    write(err, b"\n")
}
