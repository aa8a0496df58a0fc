// A table as an indented list, and formats and lengths in words.
ghost use Rattle.std.specs.Prelude.{◌<◌, length};
ghost use Rattle.tables.specs.Entries.{Valid, entries_of};

use crate::{letters, plain};
use std::io;
use value_formats::Format;

// The name of a format.
fn say_letter(out: &impl Print, format: Format) -> io::Result<()> {
    match format {
        Format::Alpha => plain::say(out, b"alphanumeric, "),
        Format::Binary => plain::say(out, b"binary, "),
        Format::Fixed => plain::say(out, b"fixed point, "),
        Format::Packed => plain::say(out, b"packed, "),
        Format::Unpacked => plain::say(out, b"unpacked, "),
    }
}

pub(crate) fn say_format(out: &impl Print, format: Format, size: usize) -> io::Result<()> {
    say_letter(out, format)?;
    if size == 0 {
        return plain::say(out, b"variable length");
    }
    plain::say_counted(out, size, b"byte")
}

// What an entry is.
fn say_what(out: &impl Print, t: &[u8], i: usize) -> io::Result<()>
    requires { Valid t.now × (i < length (entries_of t.now)) }
{
    if tables::periodic_at(t, i) {
        return plain::say(out, b"periodic group\n");
    }
    if tables::group_at(t, i) {
        return plain::say(out, b"group\n");
    }
    let e = tables::entry_at(t, i);
    if let Some(format) = e.format {
        say_format(out, format, usize::from(e.size))?;
    }
    if e.multiple {
        plain::say(out, b", multiple-value field")?;
    }
    plain::say(out, b"\n")
}

fn say_entry(out: &impl Print, t: &[u8], i: usize) -> io::Result<()>
    requires { Valid t.now × (i < length (entries_of t.now)) }
{
    let e = tables::entry_at(t, i);
    plain::indent(out, e.level)?;
    plain::say_number(out, e.level as usize)?;
    plain::say(out, b" ")?;
    letters::say_name(out, e.name)?;
    plain::say(out, b"  ")?;
    say_what(out, t, i)
}

fn say_table(out: &impl Print, t: &[u8]) -> io::Result<()>
    requires { Valid t.now }
{
    let n = tables::count(t);
    for i in 0..n {
        say_entry(out, t, i)?;
    }
    Ok(())
}

pub(crate) fn show(out: &impl Print, t: &[u8]) -> io::Result<()> {
    if tables::valid(t) {
        say_table(out, t)?;
    }
    Ok(())
}
