// Journals of updates: a record is made anew from the calls alone, and read back.
#![tactic(auto)]

ghost use Rattle.std.specs.Prelude.{◌≡◌, true, ◌+◌, ◌≤◌, ◌<◌, length, take};
ghost use Rattle.rules.specs.Limits.{longest_new_record};
ghost use Rattle.lyrecanyon.specs.Answers.{Settled};
ghost use Rattle.lyrecanyon.specs.Making.{Makes};
ghost use Rattle.journals.specs.Journal.{length_at, entry_end, whole_entry, replayed, read_after};
ghost use Rattle.journals.specs.Replay.{Steps, Replays};

use lyrecanyon::Answer;

// The two lengths before an entry's bytes.
const HEAD: usize = 4;

#[tactic(auto, unfolding(crate::specs::Journal::length_at))]
fn length_at(journal: &[u8], at: usize) -> usize
    requires { at + 2 ≤ length journal.now }
    ensures { (result ≡ length_at journal.now at) × (result < 65536) }
{
    usize::from(u16::from_be_bytes([journal[at], journal[at + 1]]))
}

// Where the entry at a place ends; the place itself where no whole entry stands there.
fn entry_end(journal: &[u8], at: usize) -> usize
    requires { at ≤ length journal.now }
    ensures { result ≡ entry_end journal.now at }
{
    let left = journal.len() - at;
    if left < HEAD {
        return at;
    }
    let size = HEAD + length_at(journal, at) + length_at(journal, at + 2);
    if left < size {
        return at;
    }
    at + size
}

// The update that an entry keeps, on the record at the front of a slice; how long the record is then.
fn apply_entry(table: &[u8], journal: &[u8], at: usize, stored: &mut [u8], used: usize) -> usize
    requires { (whole_entry journal.now at ≡ true) × (length stored.old ≡ longest_new_record) × (used ≤ length stored.old) }
    ensures { Steps table.now journal.now at stored.old used stored.new result }
{
    let format = at + HEAD;
    let buffer = format + length_at(journal, at);
    let end = buffer + length_at(journal, at + 2);
    lyrecanyon::apply(
        table,
        stored,
        used,
        &journal[format..buffer],
        &journal[buffer..end],
    )
    .unwrap_or(used)
}

// The updates of a journal, one after the other.
fn apply_entries(table: &[u8], journal: &[u8], stored: &mut [u8], start: usize) -> usize
    requires { (length stored.old ≡ longest_new_record) × (start ≤ length stored.old) }
    ensures { Replays table.now journal.now (take start stored.old) stored.new result }
{
    let mut used = start;
    let mut at = 0;
    let mut end = entry_end(journal, 0);
    while at < end {
        used = apply_entry(table, journal, at, stored, used);
        at = end;
        end = entry_end(journal, at);
    }
    used
}

// The record after the updates of a journal, to the front of an array that has room for the longest.
fn replay(table: &[u8], journal: &[u8], stored: &mut [u8]) -> Answer
    requires { length stored.old ≡ longest_new_record }
    ensures { Makes (replayed table.now journal.now) stored.new result }
{
    let start = lyrecanyon::empty(table, stored)?;
    Ok(apply_entries(table, journal, stored, start))
}

// Fills the record buffer from the record that the updates of a journal leave, beginning with the empty record of the table.
pub fn read_after(table: &[u8], journal: &[u8], format: &[u8], buffer: &mut [u8]) -> Answer
    ensures { Settled (read_after table.now journal.now format.now (length buffer.old)) buffer.old buffer.new result }
{
    let mut stored = [0u8; rules::LONGEST_NEW_RECORD];
    let used = replay(table, journal, &mut stored)?;
    lyrecanyon::read(table, &stored[..used], format, buffer)
}
