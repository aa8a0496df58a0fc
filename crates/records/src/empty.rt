// The empty record: every value null and every count 0.
ghost use Rattle.std.specs.Prelude.{◌≡◌, false, ◌++◌, ◌+◌, ◌≤◌, ◌<◌, length};
ghost use Rattle.rules.specs.Limits.{longest_alpha, record_head_size};
ghost use Rattle.rules.specs.Record.{record_head};
ghost use Rattle.buffer.specs.Splice.{splice};
ghost use Rattle.tables.specs.Entries.{Valid, entries_of, what_at};
ghost use Rattle.records.specs.Empty.{empty_entry, empty_from, null_of};

use crate::{counts, heads, inside_next};
use tables::Entry;
use value_formats::Format;

// How many bytes entry i adds to the empty record.
#[tactic(auto, using(crate::proofs::EmptyEntries::size_tests))]
fn empty_size(t: &[u8], i: usize, inside: bool) -> usize
    requires { Valid t.now × (i < length (entries_of t.now)) }
    ensures { (result ≡ length (empty_entry inside (what_at (entries_of t.now) i))) × (result ≤ longest_alpha) }
{
    let e = tables::entry_at(t, i);
    if let Some(format) = null_of(e, inside) {
        return values::null_length(format, usize::from(e.size));
    }
    if e.periodic || !inside && e.multiple {
        return rules::COUNT_SIZE;
    }
    0
}

// How long the empty record is.
#[tactic(auto, using(tables::proofs::Tables::valid_most))]
pub fn empty_length(t: &[u8]) -> usize
    requires { Valid t.now }
    ensures { result ≡ record_head_size + length (empty_from false (entries_of t.now)) }
{
    let mut inside = false;
    let mut total = rules::RECORD_HEAD_SIZE;
    for i in 0..tables::count(t) {
        inside = inside_next(t, i, inside);
        total += empty_size(t, i, inside);
    }
    total
}

// The format of the null that an entry adds: a plain field outside periodic groups does.
#[tactic(auto, using(std::proofs::lemmas::Bool::Decides::nat_tests), unfolding(crate::specs::Empty::null_of))]
fn null_of(e: Entry, inside: bool) -> Option<Format>
    ensures { result ≡ null_of inside e }
{
    if inside || e.multiple {
        return None;
    }
    e.format
}

// Writes what entry i adds to the empty record; the place after it.
fn write_entry(t: &[u8], i: usize, inside: bool, out: &mut [u8], at: usize) -> usize
    requires { Valid t.now × (i < length (entries_of t.now)) × (at + length (empty_entry inside (what_at (entries_of t.now) i)) ≤ length out.old) }
    ensures { (result ≡ at + length (empty_entry inside (what_at (entries_of t.now) i))) × (out.new ≡ splice at (empty_entry inside (what_at (entries_of t.now) i)) out.old) }
{
    let n = empty_size(t, i, inside);
    let e = tables::entry_at(t, i);
    if let Some(format) = null_of(e, inside) {
        values::write_null(format, usize::from(e.size), out, at);
        return at + n;
    }
    if n == 0 {
        return at;
    }
    counts::put_count(0, out, at)
}

// Writes the empty record.
pub fn write_empty(t: &[u8], out: &mut [u8])
    requires { Valid t.now × (record_head_size + length (empty_from false (entries_of t.now)) ≤ length out.old) }
    ensures { out.new ≡ splice 0 (record_head ++ empty_from false (entries_of t.now)) out.old }
{
    let mut at = heads::put_head(out);
    let mut inside = false;
    for i in 0..tables::count(t) {
        inside = inside_next(t, i, inside);
        at = write_entry(t, i, inside, out, at);
    }
}
