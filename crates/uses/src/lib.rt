// The use rules: what an element means by a valid table, or why it is refused.
#![tactic(auto)]

mod boxes;
mod effect;
pub mod kept;
mod meaning;
mod memory;
mod ranges;
pub mod scopes;
mod spread;
pub mod twice;

pub use meaning::use_of;
pub use memory::remember;
use value_formats::Format;

// What is kept of indexes and of entry numbers along a format.
pub type Index = u16;

// The place of the number after the entry that was named last: the next name is looked for at that number first.
pub const NEAR: usize = rules::MOST_ENTRIES;

// How many numbers are kept along a format: the last index so far of each entry, and after them the one at NEAR.
pub const INDEXES: usize = NEAR + 1;

// What is kept as the last index of an MU field after N: no number of a format is as large.
const AFTER_N: Index = 1000;

// The fields of the entries from first up to end, in the occurrences from-upto, and in each the values value_from-value_upto. Where
// standard holds, each is at its own format and length; else first is the one field, at the format and the size in effect. The fields of
// one byte stand together, since the gap that a struct has after one is copied with it.
#[derive(Clone, Copy)]
pub struct Span {
    pub first: usize,
    pub end: usize,
    pub from: usize,
    pub upto: usize,
    pub value_from: usize,
    pub value_upto: usize,
    pub size: usize,
    pub standard: bool,
    pub format: Format,
    pub bare: bool,
}

// What an element means. The bytes of a text stand in the format from one place up to another. A count has its entry's number, and
// that of an MU field its occurrence.
#[derive(Clone, Copy)]
pub enum Use {
    Blanks(usize),
    Text(usize, usize),
    GroupCount(usize),
    ValueCount(usize, usize),
    Values(Span),
}
