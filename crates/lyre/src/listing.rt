// Occurrences and counts, a line for each: with their values in a record, or with the bytes that they take.
ghost use Rattle.std.specs.Prelude.{◌≤◌, ◌<◌, length};
ghost use Rattle.tables.specs.Entries.{Valid, entries_of};

use crate::{letters, plain, tables_shown, values_shown};
use format_buffer::Scope;
use std::io;
use uses::scopes;
use uses::scopes::Scopes;
use value_formats::Format;

// How lines are made: by values or by bytes, these at a format and a length in effect or else at the standard of each field; how far
// occurrences and values reach; and whether the whole record is listed, by levels.
#[derive(Clone, Copy)]
pub struct Manner {
    pub valued: bool,
    pub in_effect: Option<(Format, usize)>,
    pub scopes: Scopes,
    pub whole: bool,
}

// An index as a format spells it. Where there is no record, N stays what it is.
fn say_index(out: &impl Print, n: usize, scope: Scope, m: Manner) -> io::Result<()> {
    match scope {
        Scope::LastAlone if !m.valued => plain::say(out, b"N"),
        Scope::UpToLast if !m.valued => plain::say(out, b"1-N"),
        _ => plain::say_number(out, n),
    }
}

// The name of entry i, with the occurrence where it lies in a periodic group.
fn say_entry_name(out: &impl Print, t: &[u8], i: usize, o: usize, m: Manner) -> io::Result<()>
    requires { Valid t.now × (i < length (entries_of t.now)) }
{
    let e = tables::entry_at(t, i);
    letters::say_name(out, e.name)?;
    if values_shown::has_occurrences(t, i) {
        say_index(out, o, m.scopes.occurrences, m)?;
    }
    Ok(())
}

// The name of value k of entry i in occurrence o, as a format spells it.
fn say_value_name(
    out: &impl Print,
    t: &[u8],
    i: usize,
    o: usize,
    k: usize,
    m: Manner,
) -> io::Result<()>
    requires { Valid t.now × (i < length (entries_of t.now)) }
{
    say_entry_name(out, t, i, o, m)?;
    if !tables::multiple_at(t, i) {
        return Ok(());
    }
    if values_shown::has_occurrences(t, i) {
        plain::say(out, b"(")?;
        say_index(out, k, m.scopes.values, m)?;
        return plain::say(out, b")");
    }
    say_index(out, k, m.scopes.values, m)
}

// Where lines say bytes they stand below their element.
pub(crate) fn say_lead(out: &impl Print, m: Manner) -> io::Result<()> {
    if !m.valued {
        plain::say(out, b"  ")?;
    }
    Ok(())
}

// The blanks before a line of entry i: by its level in a whole record.
fn say_margin(out: &impl Print, t: &[u8], i: usize, m: Manner) -> io::Result<()>
    requires { Valid t.now × (i < length (entries_of t.now)) }
{
    if m.whole {
        plain::indent(out, tables::level_at(t, i))?;
    }
    say_lead(out, m)
}

// The values of an MU field stand below their count.
fn say_deeper(out: &impl Print, t: &[u8], i: usize) -> io::Result<()>
    requires { Valid t.now × (i < length (entries_of t.now)) }
{
    if tables::multiple_at(t, i) {
        plain::say(out, b"  ")?;
    }
    Ok(())
}

// The line of value k of entry i in occurrence o.
fn say_value_line(
    out: &impl Print,
    t: &[u8],
    record: &[u8],
    i: usize,
    o: usize,
    k: usize,
    m: Manner,
) -> io::Result<()>
    requires { Valid t.now × (i < length (entries_of t.now)) }
{
    say_margin(out, t, i, m)?;
    if m.whole {
        say_deeper(out, t, i)?;
    }
    say_value_name(out, t, i, o, k, m)?;
    if m.valued {
        plain::say(out, b" = ")?;
        values_shown::say_value(out, t, record, i, o, k)?;
    } else {
        plain::say(out, b"  ")?;
        say_bytes_taken(out, t, i, m)?;
        say_each(out, m)?;
    }
    plain::say(out, b"\n")
}

// Where a line is of all that are stored, each of them takes as many bytes.
fn say_each(out: &impl Print, m: Manner) -> io::Result<()> {
    if m.scopes.occurrences == Scope::UpToLast || m.scopes.values == Scope::UpToLast {
        plain::say(out, b" each")?;
    }
    Ok(())
}

// The format and the length that a value of entry i takes.
fn say_bytes_taken(out: &impl Print, t: &[u8], i: usize, m: Manner) -> io::Result<()>
    requires { Valid t.now × (i < length (entries_of t.now)) }
{
    let e = tables::entry_at(t, i);
    let standard = e.format.map(|format| (format, usize::from(e.size)));
    if let Some((format, size)) = m.in_effect.or(standard) {
        tables_shown::say_format(out, format, size)?;
    }
    Ok(())
}

pub(crate) fn say_values(
    out: &impl Print,
    t: &[u8],
    record: &[u8],
    i: usize,
    o: usize,
    from: usize,
    upto: usize,
    m: Manner,
) -> io::Result<()>
    requires { Valid t.now × (i < length (entries_of t.now)) }
{
    for k in from..=upto {
        say_value_line(out, t, record, i, o, k, m)?;
    }
    Ok(())
}

fn say_number(out: &impl Print, t: &[u8], i: usize, n: usize) -> io::Result<()>
    requires { Valid t.now × (i < length (entries_of t.now)) }
{
    if tables::periodic_at(t, i) {
        plain::say_counted(out, n, b"occurrence")?;
    } else {
        plain::say_counted(out, n, b"value")?;
    }
    Ok(())
}

// The line of a count, of entry i in occurrence o.
pub(crate) fn say_count(
    out: &impl Print,
    t: &[u8],
    record: &[u8],
    i: usize,
    o: usize,
    m: Manner,
) -> io::Result<()>
    requires { Valid t.now × (i < length (entries_of t.now)) }
{
    say_margin(out, t, i, m)?;
    say_entry_name(out, t, i, o, m)?;
    if m.valued {
        plain::say(out, b": ")?;
        say_number(out, t, i, values_shown::count(t, record, i, o))?;
    } else {
        plain::say(out, b"  count, 1 byte")?;
    }
    plain::say(out, b"\n")
}

// The values of an MU field in one occurrence, after their count.
fn say_counted_values(
    out: &impl Print,
    t: &[u8],
    record: &[u8],
    i: usize,
    o: usize,
    m: Manner,
) -> io::Result<()>
    requires { Valid t.now × (i < length (entries_of t.now)) }
{
    say_count(out, t, record, i, o, m)?;
    say_values(
        out,
        t,
        record,
        i,
        o,
        1,
        values_shown::count(t, record, i, o),
        m,
    )
}

// Entry i in one occurrence: a group by its name alone.
fn say_entry(
    out: &impl Print,
    t: &[u8],
    record: &[u8],
    i: usize,
    o: usize,
    m: Manner,
) -> io::Result<()>
    requires { Valid t.now × (i < length (entries_of t.now)) }
{
    if tables::multiple_at(t, i) {
        return say_counted_values(out, t, record, i, o, m);
    }
    if !tables::group_at(t, i) {
        return say_value_line(out, t, record, i, o, 1, m);
    }
    if m.whole {
        say_margin(out, t, i, m)?;
        say_entry_name(out, t, i, o, m)?;
        plain::say(out, b":\n")?;
    }
    Ok(())
}

fn say_entries(
    out: &impl Print,
    t: &[u8],
    record: &[u8],
    first: usize,
    end: usize,
    o: usize,
    m: Manner,
) -> io::Result<()>
    requires { Valid t.now × (end ≤ length (entries_of t.now)) }
{
    for i in first..end {
        say_entry(out, t, record, i, o, m)?;
    }
    Ok(())
}

pub(crate) fn say_occurrences(
    out: &impl Print,
    t: &[u8],
    record: &[u8],
    first: usize,
    end: usize,
    from: usize,
    upto: usize,
    m: Manner,
) -> io::Result<()>
    requires { Valid t.now × (end ≤ length (entries_of t.now)) }
{
    for o in from..=upto {
        say_entries(out, t, record, first, end, o, m)?;
    }
    Ok(())
}

// A periodic group: its count, and its members in each occurrence.
fn say_periodic(out: &impl Print, t: &[u8], record: &[u8], i: usize, m: Manner) -> io::Result<()>
    requires { Valid t.now × (i < length (entries_of t.now)) }
{
    say_count(out, t, record, i, 1, m)?;
    let n = values_shown::count(t, record, i, 1);
    let end = tables::group_end(t, i);
    say_occurrences(out, t, record, i + 1, end, 1, n, m)
}

// An entry of the record; the members of a periodic group are said with it.
fn say_part(out: &impl Print, t: &[u8], record: &[u8], i: usize, m: Manner) -> io::Result<()>
    requires { Valid t.now × (i < length (entries_of t.now)) }
{
    if tables::periodic_at(t, i) {
        return say_periodic(out, t, record, i, m);
    }
    if !tables::inside(t, i) {
        say_entry(out, t, record, i, 1, m)?;
    }
    Ok(())
}

// A whole record, field by field.
fn say_record(out: &impl Print, t: &[u8], record: &[u8]) -> io::Result<()>
    requires { Valid t.now }
{
    let m = Manner {
        valued: true,
        in_effect: None,
        scopes: scopes::both_written(),
        whole: true,
    };
    let n = tables::count(t);
    for i in 0..n {
        say_part(out, t, record, i, m)?;
    }
    Ok(())
}

pub(crate) fn show(out: &impl Print, t: &[u8], record: &[u8]) -> io::Result<()> {
    if tables::valid(t) {
        say_record(out, t, record)?;
    }
    Ok(())
}
