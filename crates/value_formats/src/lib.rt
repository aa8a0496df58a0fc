// The five formats: their letters, which lengths they have, and which convert.
#![tactic(auto)]

ghost use Rattle.std.specs.Prelude.{◌≡◌};
ghost use Rattle.rules.specs.Table.{format_of};
ghost use Rattle.rules.specs.Values as Rules;
ghost use Rattle.value_formats.specs.Formats.{format_at, format_given, kind_of};

use self::Kind::{Every, Natural, Never, Word};
use rules::FORMATS;

// A, B, F, P and U, in the order of the tables below.
#[derive(Clone, Copy, Debug, PartialEq, Eq)]
pub enum Format {
    Alpha,
    Binary,
    Fixed,
    Packed,
    Unpacked,
}

// The format of a letter, being A, B, F, P or U.
#[tactic(auto, using(crate::proofs::Letters::letter_other), unfolding(crate::specs::Formats::format_at, rules::specs::Table::format_of, rules::specs::Lists::look_up, rules::specs::Table::format_letters))]
pub fn format_of(letter: u8) -> Option<Format>
    ensures { format_given result ≡ format_of letter }
{
    match letter {
        0xc1 => Some(Format::Alpha),
        0xc2 => Some(Format::Binary),
        0xc6 => Some(Format::Fixed),
        0xd7 => Some(Format::Packed),
        0xe4 => Some(Format::Unpacked),
        _ => None,
    }
}

// The least and greatest lengths of each format.
const LEAST: [usize; FORMATS] = [0, 1, 2, 1, 1];

const GREATEST: [usize; FORMATS] = [
    rules::LONGEST_ALPHA,
    rules::LONGEST_BINARY,
    4,
    rules::LONGEST_PACKED,
    rules::LONGEST_UNPACKED,
];

// The longest length of a format.
#[tactic(auto, using(crate::proofs::Constants::longest_at))]
pub fn longest(format: Format) -> usize
    ensures { result ≡ Rules.longest (format_at format) }
{
    GREATEST[format as usize]
}

// Whether a format has values of a length.
#[tactic(auto, using(crate::proofs::Constants::allowing))]
pub fn allowed(format: Format, size: usize) -> bool
    ensures { result ≡ Rules.allowed (format_at format) size }
{
    LEAST[format as usize] <= size
        && size <= GREATEST[format as usize]
        && (format != Format::Fixed || size != 3)
}

// Which values convert: none, all, those of a word, those of a word that are not below zero.
#[derive(Clone, Copy, Debug, PartialEq, Eq)]
pub enum Kind {
    Never,
    Every,
    Word,
    Natural,
}

// Row the field's format, column the format in effect.
const CONVERTS: [[Kind; FORMATS]; FORMATS] = [
    [Every, Never, Never, Never, Never],
    [Never, Every, Natural, Natural, Natural],
    [Never, Natural, Every, Word, Word],
    [Never, Natural, Word, Every, Every],
    [Never, Natural, Word, Every, Every],
];

// Which values convert from a format to another.
#[tactic(auto, using(crate::proofs::Constants::converts_at))]
pub fn conversion(row: Format, column: Format) -> Kind
    ensures { kind_of result ≡ Rules.conversion (format_at row) (format_at column) }
{
    CONVERTS[row as usize][column as usize]
}

// Whether any do.
pub fn converts(row: Format, column: Format) -> bool
    ensures { result ≡ Rules.converts (format_at row) (format_at column) }
{
    conversion(row, column) != Never
}
