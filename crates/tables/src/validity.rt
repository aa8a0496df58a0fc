// Whether a slice is a field definition table.
ghost use Rattle.std.specs.Prelude.{◌≡◌, false, ◌≤◌, ◌<◌, length, drop};
ghost use Rattle.std.proofs.Math.Option.{none};
ghost use Rattle.rules.specs.Outcome.{is_done};
ghost use Rattle.rules.specs.Limits.{table_head_size};
ghost use Rattle.rules.specs.Table.{format_of, group, what_of, entries, levels, differ, names, table};
ghost use Rattle.tables.specs.Entries.{entry_place, bytes_at, HasEntry};
ghost use Rattle.tables.specs.Validity.{right_of, read_entries, Right, follows, mark_of, NamedBefore, headed};

use crate::entries;
use crate::entries::{COUNT, entry_byte};

// Whether a group's level, format letter, length and option go together.
#[tactic(auto, using(crate::proofs::EntryBytes::what_tests))]
fn group_right(level: u8, letter: u8, size: u8, option: u8) -> bool
    requires { format_of letter ≡ none }
    ensures { result ≡ is_done (what_of level letter size option) }
{
    letter == characters::SPACE
        && size == 0
        && (option == 0 || option == entries::PERIODIC && level == 1)
}

// The same of any entry.
#[tactic(auto, using(crate::proofs::EntryBytes::what_tests))]
fn what_right(level: u8, letter: u8, size: u8, option: u8) -> bool
    ensures { result ≡ is_done (what_of level letter size option) }
{
    let Some(format) = value_formats::format_of(letter) else {
        return group_right(level, letter, size, option);
    };
    value_formats::allowed(format, usize::from(size)) && option <= entries::MULTIPLE
}

// Whether entry i is right by itself.
#[tactic(auto, unfolding(crate::specs::Validity::right_of))]
fn entry_right(t: &[u8], i: usize) -> bool
    requires { HasEntry t.now i }
    ensures { result ≡ right_of (bytes_at t.now i) }
{
    characters::is_name(
        entry_byte(t, i, entries::NAME_FIRST),
        entry_byte(t, i, entries::NAME_SECOND),
    ) && what_right(
        entry_byte(t, i, entries::LEVEL),
        entry_byte(t, i, entries::FORMAT),
        entry_byte(t, i, entries::SIZE),
        entry_byte(t, i, entries::OPTION),
    )
}

// Whether each of the n entries is right by itself.
#[tactic(auto, using(crate::proofs::EntryBytes::right_steps))]
fn entries_right(t: &[u8], n: usize) -> bool
    requires { entry_place n ≡ length t.now }
    ensures { result ≡ is_done (entries n (drop table_head_size t.now)) }
{
    for i in 0..n {
        if !entry_right(t, i) {
            return false;
        }
    }
    true
}

// Whether a level may follow that of a group, or of a field.
#[tactic(auto, using(std::proofs::lemmas::Bool::Decides::nat_tests), unfolding(crate::specs::Validity::follows))]
fn may_follow(group: bool, before: u8, level: u8) -> bool
    ensures { result ≡ follows group before level }
{
    if group {
        return before < rules::DEEPEST_LEVEL && level == before + 1;
    }
    1 <= level && level <= before
}

// Whether the levels of the n entries are right, and the last entry is a field.
#[tactic(auto, using(crate::proofs::Tables::read_steps, crate::proofs::Levels::level_steps))]
fn levels_right(t: &[u8], n: usize) -> bool
    requires { Right n t.now }
    ensures { result ≡ levels (group false) 0 (read_entries n t.now) }
{
    let mut after_group = true;
    let mut before = 0;
    for i in 0..n {
        let level = entries::level_in(t, i);
        if !may_follow(after_group, before, level) {
            return false;
        }
        after_group = entries::group_in(t, i);
        before = level;
    }
    !after_group
}

// The mark of a name, one of 256. Names with different marks differ, and names that follow each other, as A1, A2, B1, have different marks.
#[tactic(auto, unfolding(crate::specs::Validity::mark_of))]
fn mark_of(name: u16) -> usize
    ensures { (result ≡ mark_of name) × (result < 256) }
{
    let [a, b] = name.to_be_bytes();
    (usize::from(a) * 11 + usize::from(b)) % 256
}

// Whether one of the entries before entry i has the name.
fn named_before(t: &[u8], i: usize, name: u16) -> bool
    requires { entry_place i ≤ length t.now }
    ensures { NamedBefore t.now i name result }
{
    for j in 0..i {
        if entries::name_at(t, j) == name {
            return true;
        }
    }
    false
}

// Whether the names of the n entries differ. Names are compared only where a name before has the same mark.
#[tactic(auto, using(crate::proofs::Tables::read_steps, crate::proofs::Marks::mark_steps))]
fn names_differ(t: &[u8], n: usize) -> bool
    requires { Right n t.now }
    ensures { result ≡ differ (names (read_entries n t.now)) }
{
    let mut seen = [false; 256];
    for i in 0..n {
        let name = entries::name_at(t, i);
        let k = mark_of(name);
        if seen[k] && named_before(t, i, name) {
            return false;
        }
        seen[k] = true;
    }
    true
}

// Whether the head, the number of entries and the length of the slice are a table's.
#[tactic(auto, using(std::proofs::lemmas::Bool::Decides::nat_tests), unfolding(crate::specs::Validity::headed, rules::specs::Table::table_head))]
fn head_right(t: &[u8]) -> bool
    ensures { result ≡ headed t.now }
{
    if t.len() < rules::TABLE_HEAD_SIZE || !buffer::stands_at(t, 0, b"\xe5\xc6\xe3\x00\x01") {
        return false;
    }
    let n = usize::from(t[COUNT]);
    1 <= n && n <= rules::MOST_ENTRIES && t.len() == n * rules::ENTRY_SIZE + rules::TABLE_HEAD_SIZE
}

// Whether the slice is a field definition table.
#[tactic(auto, using(crate::proofs::Tables::valid_tests))]
pub fn valid(t: &[u8]) -> bool
    ensures { result ≡ is_done (table t.now) }
{
    if !head_right(t) {
        return false;
    }
    let n = usize::from(t[COUNT]);
    entries_right(t, n) && levels_right(t, n) && names_differ(t, n)
}
