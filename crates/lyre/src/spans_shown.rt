// What the elements of a read mean, by how far their indexes reach: with a record the occurrences and values that it has, without one N.
ghost use Rattle.std.specs.Prelude.{◌≡◌, ◌<◌, length};
ghost use Rattle.tables.specs.Entries.{Valid, entries_of};

use crate::listing::Manner;
use crate::{listing, values_shown};
use format_buffer::Scope;
use std::io;
use uses::Span;
use uses::scopes::{resolved_from, resolved_upto};

// The values of entry i that are meant in occurrence o; without a record, as they are written.
fn say_values_meant(
    out: &impl Print,
    t: &[u8],
    record: &[u8],
    i: usize,
    o: usize,
    s: Span,
    m: Manner,
) -> io::Result<()>
    requires { Valid t.now × (i < length (entries_of t.now)) }
{
    if m.valued && m.scopes.values != Scope::AsWritten {
        let n = values_shown::count(t, record, i, o);
        let from = resolved_from(m.scopes.values, s.value_from, s.value_upto, n);
        let upto = resolved_upto(m.scopes.values, s.value_from, s.value_upto, n);
        return listing::say_values(out, t, record, i, o, from, upto, m);
    }
    listing::say_values(out, t, record, i, o, s.value_from, s.value_upto, m)
}

// The values of one field in several occurrences.
fn say_field(
    out: &impl Print,
    t: &[u8],
    record: &[u8],
    i: usize,
    s: Span,
    m: Manner,
) -> io::Result<()>
    requires { Valid t.now × (i < length (entries_of t.now)) }
{
    let from = s.from;
    let upto = s.upto;
    for o in from..=upto {
        say_values_meant(out, t, record, i, o, s, m)?;
    }
    Ok(())
}

// How many occurrences a record has of the periodic group in which entry i lies.
fn occurrences_stored(t: &[u8], record: &[u8], i: usize) -> usize
    requires { Valid t.now × (i < length (entries_of t.now)) }
    ensures { result < 256 }
{
    match tables::periodic_group(t, i) {
        Some(g) => values_shown::count(t, record, g, 1),
        None => 0,
    }
}

// The last of the occurrences of entry i that are meant, of those from one up to another; without a record, as it is written.
fn upto_meant(t: &[u8], record: &[u8], i: usize, from: usize, upto: usize, m: Manner) -> usize
    requires { Valid t.now × (i < length (entries_of t.now)) }
{
    if m.valued && m.scopes.occurrences != Scope::AsWritten {
        return resolved_upto(
            m.scopes.occurrences,
            from,
            upto,
            occurrences_stored(t, record, i),
        );
    }
    upto
}

// A span with the occurrences that are meant.
fn span_meant(t: &[u8], record: &[u8], s: Span, m: Manner) -> Span
    requires { Valid t.now × (s.first < length (entries_of t.now)) }
    ensures { (result.first ≡ s.first) × (result.end ≡ s.end) }
{
    let mut meant = s;
    meant.upto = upto_meant(t, record, s.first, s.from, s.upto, m);
    if m.scopes.occurrences == Scope::LastAlone {
        meant.from = meant.upto;
    }
    meant
}

// What a span names, in its order.
fn say_span_meant(out: &impl Print, t: &[u8], record: &[u8], s: Span, m: Manner) -> io::Result<()>
    requires { Valid t.now × (s.first < length (entries_of t.now)) }
{
    if s.standard {
        if s.end <= tables::count(t) {
            listing::say_occurrences(out, t, record, s.first, s.end, s.from, s.upto, m)?;
        }
        return Ok(());
    }
    say_field(out, t, record, s.first, s, m)
}

pub(crate) fn say_span(
    out: &impl Print,
    t: &[u8],
    record: &[u8],
    s: Span,
    m: Manner,
) -> io::Result<()>
    requires { Valid t.now }
{
    if s.first < tables::count(t) {
        say_span_meant(out, t, record, span_meant(t, record, s, m), m)?;
    }
    Ok(())
}

// The count of entry i in the occurrence that is meant.
pub(crate) fn say_count_meant(
    out: &impl Print,
    t: &[u8],
    record: &[u8],
    i: usize,
    o: usize,
    m: Manner,
) -> io::Result<()>
    requires { Valid t.now }
{
    if i < tables::count(t) {
        listing::say_count(out, t, record, i, upto_meant(t, record, i, o, o, m), m)?;
    }
    Ok(())
}
