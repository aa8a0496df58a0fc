// The bounds of document 01, each under what it bounds, and why a call is refused. The definitions in specs/Limits.antt and
// specs/Numbers.antt have the same names; no other crate writes these numbers.
#![tactic(auto)]

ghost use Rattle.std.specs.Prelude.{◌≡◌};
ghost use Rattle.rules.specs.Numbers.{refusal_number, refusal_length};

use std::error::Error;
use std::fmt;
use std::fmt::{Display, Formatter};

// "64 table entries; level 7"
pub const MOST_ENTRIES: usize = 64;

pub const DEEPEST_LEVEL: u8 = 7;

// "occurrence and value indexes 1 to 191"
pub const HIGHEST_INDEX: usize = 191;

// "a count byte 0 to 191": what a stored count says at most.
pub const GREATEST_COUNT: usize = 191;

// "format buffer 2,048 bytes"
pub const LONGEST_FORMAT: usize = 2048;

// "all items of one call together 32,767 bytes"
pub const LONGEST_ITEMS: usize = 32767;

// The longest record that is taken (refusal 2), and the longest that is made (refusal 10).
pub const LONGEST_RECORD: usize = 4096;

pub const LONGEST_NEW_RECORD: usize = 4096;

// The greatest standard lengths of A, B, P and U.
pub const LONGEST_ALPHA: usize = 253;

pub const LONGEST_BINARY: usize = 126;

pub const LONGEST_PACKED: usize = 15;

pub const LONGEST_UNPACKED: usize = 29;

// "−2,147,483,648 to 2,147,483,647": the magnitudes of the lowest and the greatest number of the conversion ranges.
pub const LOWEST_WORD: u32 = 2147483648;

pub const GREATEST_WORD: u32 = 2147483647;

// In a format: `nX`, text and a length go to 255; "numbers have one to three digits".
pub const LONGEST_BLANKS: u16 = 255;

pub const LONGEST_TEXT: usize = 255;

pub const GREATEST_LENGTH: u16 = 255;

pub const MOST_DIGITS: usize = 3;

// How many formats there are: A, B, F, P, U.
pub const FORMATS: usize = 5;

// The bytes of a table's head, with its number of entries, and of an entry.
pub const TABLE_HEAD_SIZE: usize = 6;

pub const ENTRY_SIZE: usize = 6;

// The bytes of a record's head, and of a stored count.
pub const RECORD_HEAD_SIZE: usize = 5;

pub const COUNT_SIZE: usize = 1;

// Why a call is refused: the numbers 1 to 10 of document 01, in their order; 9 with the smallest length that would have held the value, or 0.
#[derive(Clone, Copy, Debug, PartialEq, Eq)]
pub enum Refusal {
    BadTable,
    BadRecord,
    BadSyntax,
    UnknownName,
    UseRule,
    NamedTwice,
    BeyondBuffer,
    BadValue,
    OutOfRange(u8),
    NoRoom,
}

impl Refusal {
    // Its number.
    pub fn number(self) -> u8
        ensures { result ≡ refusal_number self }
    {
        match self {
            Refusal::BadTable => 1,
            Refusal::BadRecord => 2,
            Refusal::BadSyntax => 3,
            Refusal::UnknownName => 4,
            Refusal::UseRule => 5,
            Refusal::NamedTwice => 6,
            Refusal::BeyondBuffer => 7,
            Refusal::BadValue => 8,
            Refusal::OutOfRange(_) => 9,
            Refusal::NoRoom => 10,
        }
    }

    // The length that it says: with 9 the smallest that would have held the value, or 0.
    pub fn length(self) -> u8
        ensures { result ≡ refusal_length self }
    {
        match self {
            Refusal::OutOfRange(n) => n,
            _ => 0,
        }
    }
}

// What it means, in the words of document 01.
impl Display for Refusal {
    fn fmt<W: fmt::Write>(&self, f: &mut Formatter<W>) -> fmt::Result {
        f.write_str(match self {
            Refusal::BadTable => "the table is not a field definition table",
            Refusal::BadRecord => {
                "the record is not a stored record of this table, or is over 4,096 bytes"
            }
            Refusal::BadSyntax => "the format is not well formed",
            Refusal::UnknownName => {
                "the format names a field or group that the table does not have"
            }
            Refusal::UseRule => {
                "the format breaks a use rule: the index, length or format does not suit the name, or the group cannot be named"
            }
            Refusal::NamedTwice => "the update names a value twice",
            Refusal::BeyondBuffer => {
                "an item ends beyond the values that were given, or beyond 32,767 bytes"
            }
            Refusal::BadValue => "a value that was given is not a value of its format",
            Refusal::OutOfRange(_) => {
                "a value is outside the range of the conversion, or does not fit the length"
            }
            Refusal::NoRoom => "the new record is over 4,096 bytes",
        })
    }
}

impl Error for Refusal {}
