// The magnitude of a value as a number, and the digits of a number as bytes.
ghost use Rattle.std.specs.Prelude.{◌≡◌, ◌&&◌, true, false, ◌+◌, ◌-◌, ◌*◌, ◌/◌, ◌%◌, ◌≤◌, ◌<◌, ◌^◌, ltb, length};
ghost use Rattle.rules.specs.Values.{accepted_minus};
ghost use Rattle.buffer.specs.Splice.{splice};
ghost use Rattle.decimals.specs.Decimals.{Readable, front};
ghost use Rattle.decimals.specs.Numbers.{Reckoned};

use super::{digits, signs};
use rules::LOWEST_WORD;

// The magnitude of P, two digits a byte, or of U, one; it stops as soon as it is greater than any in a conversion range.
fn magnitude<const PACKED: bool>(s: &[u8]) -> u64
    requires { Readable PACKED s.now }
    ensures { Reckoned PACKED s.now result }
{
    let mut x = 0;
    for &b in &s[..s.len() - 1] {
        x = if PACKED {
            x * 100 + u64::from(b / 16 * 10 + b % 16)
        } else {
            x * 10 + u64::from(b % 16)
        };
        if u64::from(LOWEST_WORD) < x {
            return x;
        }
    }
    x * 10 + u64::from(digits::last_digit(s, PACKED))
}

// The magnitude of a value of either format; if it is too great for a word, a number that is too great as well.
pub fn reckoned(s: &[u8], packed: bool) -> u64
    requires { Readable packed s.now }
    ensures { Reckoned packed s.now result }
{
    if packed {
        magnitude::<true>(s)
    } else {
        magnitude::<false>(s)
    }
}

// Whether a magnitude with a sign is below zero: zero is not, whatever its sign.
pub fn below_zero(x: u64, sign: u8) -> bool
    ensures { result ≡ (accepted_minus sign && ltb 0 x) }
{
    x != 0 && signs::is_minus(sign)
}

// 10^m, where a magnitude can have more than m digits.
pub fn power_of_ten(m: usize) -> u32
    requires { (0 < m) × (m < 10) }
    ensures { result ≡ 10 ^ m }
{
    match m {
        1 => 10,
        2 => 100,
        3 => 1000,
        4 => 10000,
        5 => 100000,
        6 => 1000000,
        7 => 10000000,
        8 => 100000000,
        _ => 1000000000,
    }
}

// Writes the last digits of x as n bytes to out, from the place at: two digits for a byte of P, one for a byte of U.
pub fn put_digits<const PACKED: bool>(x: u32, n: usize, out: &mut [u8], at: usize)
    requires { at + n ≤ length out.old }
    ensures { out.new ≡ splice at (front PACKED n x) out.old }
{
    let mut rest = x;
    for i in (0..n).rev() {
        if PACKED {
            let b = (rest % 100) as u8;
            out[at + i] = b / 10 * 16 + b % 10;
            rest /= 100;
        } else {
            out[at + i] = 0xF0 + (rest % 10) as u8;
            rest /= 10;
        }
    }
}
