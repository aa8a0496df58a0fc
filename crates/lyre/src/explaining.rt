// What the elements of a format name, one after the other.
ghost use Rattle.std.specs.Prelude.{◌≤◌, length};
ghost use Rattle.rules.specs.Limits.{longest_format};
ghost use Rattle.tables.specs.Entries.{Valid};

use crate::listing::Manner;
use crate::{letters, listing, meanings, plain, refusals, spans_shown};
use std::io;
use uses::scopes::Scopes;
use uses::{INDEXES, Index, Use};

fn manner(u: Use, scopes: Scopes, valued: bool) -> Manner {
    let in_effect = match u {
        Use::Values(s) if !s.standard => Some((s.format, s.size)),
        _ => None,
    };
    Manner {
        valued,
        in_effect,
        scopes,
        whole: false,
    }
}

fn say_text(out: &impl Print, f: &[u8], from: usize, upto: usize) -> io::Result<()> {
    if from <= upto && upto <= f.len() {
        plain::say(out, b"the text ")?;
        letters::say_quoted(out, &f[from..upto])?;
        plain::say(out, b"\n")?;
    }
    Ok(())
}

// What an element names, or the blanks or the text that it stands for.
fn say_use(out: &impl Print, t: &[u8], record: &[u8], f: &[u8], u: Use, m: Manner) -> io::Result<()>
    requires { Valid t.now }
{
    match u {
        Use::Blanks(n) => {
            listing::say_lead(out, m)?;
            plain::say_counted(out, n, b"blank")?;
            plain::say(out, b"\n")
        }
        Use::Text(from, upto) => {
            listing::say_lead(out, m)?;
            say_text(out, f, from, upto)
        }
        Use::GroupCount(i) => spans_shown::say_count_meant(out, t, record, i, 1, m),
        Use::ValueCount(i, o) => spans_shown::say_count_meant(out, t, record, i, o, m),
        Use::Values(s) => spans_shown::say_span(out, t, record, s, m),
    }
}

// What the elements of a format that is not refused name by a valid table; where values are not asked for, each after the element itself.
fn say_elements(out: &impl Print, t: &[u8], record: &[u8], f: &[u8], valued: bool) -> io::Result<()>
    requires { Valid t.now × (length f.now ≤ longest_format) }
{
    let mut last: [Index; INDEXES] = [0; INDEXES];
    let mut at = 0;
    let mut n = 1;
    while let Ok((u, s, stop)) = meanings::next(t, f, at, &mut last) {
        if !valued {
            refusals::write_element(out, f, at, stop, n)?;
        }
        say_use(out, t, record, f, u, manner(u, s, valued))?;
        if format_buffer::syntax::is_last(f, stop) {
            break;
        }
        at = stop + 1;
        n += 1;
    }
    Ok(())
}

// What a format names by a table: with the values in a record, or with the bytes that each takes.
pub(crate) fn say_format(
    out: &impl Print,
    t: &[u8],
    record: &[u8],
    f: &[u8],
    valued: bool,
) -> io::Result<()> {
    if tables::valid(t) {
        if f.len() <= rules::LONGEST_FORMAT {
            say_elements(out, t, record, f, valued)?;
        }
    }
    Ok(())
}
