// Whether bytes are a value, byte by byte, and whether a value is below zero.
ghost use Rattle.std.specs.Prelude.{◌≡◌, ◌&&◌, true, false, ◌-◌, ◌/◌, ◌%◌, ◌≤◌, ◌<◌, leb, length};
ghost use Rattle.rules.specs.Outcome.{is_done};
ghost use Rattle.rules.specs.Limits.{longest_alpha};
ghost use Rattle.rules.specs.Lists.{all};
ghost use Rattle.rules.specs.Values.{meaning};
ghost use Rattle.decimals.specs.Decimals.{decimal_format, sign_half, is_negative};
ghost use Rattle.decimals.specs.Tests.{is_sign, inner_byte, last_byte};

use super::{digits, signs};

// Whether the halves of a last byte are a digit and a sign.
fn digit_and_sign(d: u8, h: u8) -> bool
    requires { h < 16 }
    ensures { result ≡ (leb d 9 && is_sign h) }
{
    d <= 9 && signs::is_sign(h)
}

// Whether a byte can be the last: a digit and a sign.
#[tactic(auto, unfolding(crate::specs::Tests::last_byte))]
pub fn last_byte(b: u8, packed: bool) -> bool
    ensures { result ≡ last_byte packed b }
{
    if packed {
        digit_and_sign(b / 16, b % 16)
    } else {
        digit_and_sign(b % 16, b / 16)
    }
}

// Whether bytes can all stand before the last: two digits of P each, or F and a digit of U.
pub fn all_inner(s: &[u8], packed: bool) -> bool
    ensures { result ≡ all (inner_byte packed) s.now }
{
    if packed {
        s.iter().all(|b| *b <= 0x99 && *b % 16 <= 9)
    } else {
        s.iter().all(|b| matches!(*b, 0xF0..=0xF9))
    }
}

// The half byte that holds the sign.
#[tactic(auto, using(crate::proofs::Halves::packed_sign, crate::proofs::Halves::unpacked_sign))]
pub fn sign(s: &[u8], packed: bool) -> u8
    requires { 0 < length s.now }
    ensures { result ≡ sign_half packed s.now }
{
    let b = s[s.len() - 1];
    if packed { b % 16 } else { b / 16 }
}

// Whether the value s is below zero: zero is not, whatever its sign.
#[tactic(auto, using(crate::proofs::Before::negative_by_last, crate::proofs::Before::negative_before_last))]
pub fn negative(s: &[u8], packed: bool) -> bool
    requires { (is_done (meaning (decimal_format packed) s.now) ≡ true) × (length s.now ≤ longest_alpha) }
    ensures { result ≡ is_negative packed s.now }
{
    if !signs::is_minus(sign(s, packed)) {
        return false;
    }
    if digits::last_digit(s, packed) != 0 {
        return true;
    }
    !digits::zeros_before(s, packed, s.len() - 1)
}
