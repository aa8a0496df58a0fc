// The entries of a table by their bytes: two are the name, the others the level, the format, the length and the option.
#![tactic(auto, using(crate::proofs::Tables::valid_steps), unfolding(crate::specs::Entries::entry_of_bytes, crate::specs::Entries::group_letter, rules::specs::Table::name_of))]

ghost use Rattle.std.specs.Prelude.{◌≡◌, false, ◌<◌, length, get_or};
ghost use Rattle.rules.specs.Limits.{entry_size};
ghost use Rattle.tables.specs.Entries.{is_group, is_multiple, is_periodic, size_of, format_at, field_format, entry_of_bytes, group_letter, HasEntry, bytes_at, Valid, entries_of, decoded, blank, what_at};

use crate::Entry;
use value_formats::Format;

// The places of its bytes in an entry.
pub const NAME_FIRST: usize = 0;

pub const NAME_SECOND: usize = 1;

pub const LEVEL: usize = 2;

pub const FORMAT: usize = 3;

pub const SIZE: usize = 4;

pub const OPTION: usize = 5;

// The options of an MU field and of a periodic group.
pub const MULTIPLE: u8 = 1;

pub const PERIODIC: u8 = 2;

// The place in a table of the number of its entries: the head ends with it.
pub const COUNT: usize = rules::TABLE_HEAD_SIZE - 1;

// Byte k of entry i.
pub fn entry_byte(t: &[u8], i: usize, k: usize) -> u8
    requires { HasEntry t.now i × (k < entry_size) }
    ensures { result ≡ get_or (bytes_at t.now i) k 0 }
{
    t[i * rules::ENTRY_SIZE + rules::TABLE_HEAD_SIZE + k]
}

// The name of entry i, as one number.
pub fn name_at(t: &[u8], i: usize) -> u16
    requires { HasEntry t.now i }
    ensures { result ≡ (entry_of_bytes (bytes_at t.now i)).name }
{
    u16::from_be_bytes([entry_byte(t, i, NAME_FIRST), entry_byte(t, i, NAME_SECOND)])
}

// Entry i, decoded, whether or not its bytes are right.
fn decode(t: &[u8], i: usize) -> Entry
    requires { HasEntry t.now i }
    ensures { result ≡ entry_of_bytes (bytes_at t.now i) }
{
    let option = entry_byte(t, i, OPTION);
    Entry {
        name: name_at(t, i),
        level: entry_byte(t, i, LEVEL),
        format: value_formats::format_of(entry_byte(t, i, FORMAT)),
        size: entry_byte(t, i, SIZE),
        multiple: option == MULTIPLE,
        periodic: option == PERIODIC,
    }
}

// The level of entry i, whether or not it is right.
pub fn level_in(t: &[u8], i: usize) -> u8
    requires { HasEntry t.now i }
    ensures { result ≡ (entry_of_bytes (bytes_at t.now i)).level }
{
    entry_byte(t, i, LEVEL)
}

// Whether entry i has a group's letter.
pub fn group_in(t: &[u8], i: usize) -> bool
    requires { HasEntry t.now i }
    ensures { result ≡ group_letter (bytes_at t.now i) }
{
    entry_byte(t, i, FORMAT) == characters::SPACE
}

// How many entries the table has.
pub fn count(t: &[u8]) -> usize
    requires { Valid t.now }
    ensures { result ≡ length (entries_of t.now) }
{
    usize::from(t[COUNT])
}

// Entry i.
pub fn entry_at(t: &[u8], i: usize) -> Entry
    requires { Valid t.now × (i < length (entries_of t.now)) }
    ensures { result ≡ decoded (get_or (entries_of t.now) i blank) }
{
    decode(t, i)
}

// The level of entry i.
pub fn level_at(t: &[u8], i: usize) -> u8
    requires { Valid t.now × (i < length (entries_of t.now)) }
    ensures { result ≡ (get_or (entries_of t.now) i blank).level }
{
    level_in(t, i)
}

// The format of entry i, a field.
pub fn field_format(t: &[u8], i: usize) -> Format
    requires { Valid t.now × (i < length (entries_of t.now)) × (is_group (what_at (entries_of t.now) i) ≡ false) }
    ensures { format_at result ≡ field_format (what_at (entries_of t.now) i) }
{
    value_formats::format_of(entry_byte(t, i, FORMAT)).unwrap_or(Format::Alpha)
}

// The standard length of entry i: 0 where it is a group.
pub fn size_at(t: &[u8], i: usize) -> usize
    requires { Valid t.now × (i < length (entries_of t.now)) }
    ensures { (result ≡ size_of (what_at (entries_of t.now) i)) × (result < 256) }
{
    usize::from(entry_byte(t, i, SIZE))
}

// Whether entry i is a group.
pub fn group_at(t: &[u8], i: usize) -> bool
    requires { Valid t.now × (i < length (entries_of t.now)) }
    ensures { result ≡ is_group (what_at (entries_of t.now) i) }
{
    group_in(t, i)
}

// Whether entry i is an MU field.
pub fn multiple_at(t: &[u8], i: usize) -> bool
    requires { Valid t.now × (i < length (entries_of t.now)) }
    ensures { result ≡ is_multiple (what_at (entries_of t.now) i) }
{
    entry_byte(t, i, OPTION) == MULTIPLE
}

// Whether entry i is a periodic group.
pub fn periodic_at(t: &[u8], i: usize) -> bool
    requires { Valid t.now × (i < length (entries_of t.now)) }
    ensures { result ≡ is_periodic (what_at (entries_of t.now) i) }
{
    entry_byte(t, i, OPTION) == PERIODIC
}
