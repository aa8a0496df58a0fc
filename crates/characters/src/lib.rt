// EBCDIC characters, and names.
#![tactic(auto)]

ghost use Rattle.std.specs.Prelude.{◌≡◌};
ghost use Rattle.rules.specs.Characters.{letter, digit};
ghost use Rattle.rules.specs.Table.{is_name};
ghost use Rattle.rules.specs.Format.{is_override};

pub const SPACE: u8 = 0x40;

pub const PERIOD: u8 = 0x4B;

pub const OPEN: u8 = 0x4D;

pub const CLOSE: u8 = 0x5D;

pub const HYPHEN: u8 = 0x60;

pub const COMMA: u8 = 0x6B;

pub const APOSTROPHE: u8 = 0x7D;

pub const LETTER_C: u8 = 0xC3;

const LETTER_E: u8 = 0xC5;

pub const LETTER_N: u8 = 0xD5;

pub const LETTER_X: u8 = 0xE7;

pub const DIGIT_0: u8 = 0xF0;

#[tactic(auto, unfolding(rules::specs::Characters::digit))]
pub fn is_digit(b: u8) -> bool
    ensures { result ≡ digit b }
{
    matches!(b, DIGIT_0..=0xF9)
}

#[tactic(auto, unfolding(rules::specs::Characters::letter))]
fn is_letter(b: u8) -> bool
    ensures { result ≡ letter b }
{
    matches!(b, 0xC1..=0xC9 | 0xD1..=0xD9 | 0xE2..=0xE9)
}

// A digit is asked for first: that is one comparison, and a letter three.
#[tactic(auto, unfolding(rules::specs::Table::is_name, rules::specs::Characters::letter, rules::specs::Characters::digit))]
pub fn is_name(a: u8, b: u8) -> bool
    ensures { result ≡ is_name a b }
{
    is_letter(a) && (is_digit(b) && a != LETTER_E || is_letter(b))
}

// Whether a byte is one of the formats that may follow a name: A, B, F, G, P, U or W.
#[tactic(auto, unfolding(rules::specs::Format::is_override, rules::specs::Format::override_letters, rules::specs::Lists::any))]
pub fn is_override(b: u8) -> bool
    ensures { result ≡ is_override b }
{
    matches!(b, 0xC1 | 0xC2 | 0xC6 | 0xC7 | 0xD7 | 0xE4 | 0xE6)
}
