// Format B: unsigned numbers of 1 to LONGEST_BINARY bytes, converted from bytes to bytes, and to and from a word.
#![tactic(auto)]

ghost use Rattle.std.specs.Prelude.{◌≡◌, true, ◌+◌, ◌≤◌, length};
ghost use Rattle.rules.specs.Outcome.{is_done};
ghost use Rattle.rules.specs.Lists.{bytes_of};
ghost use Rattle.rules.specs.Values.{binary, meaning, normal, converted_bytes};
ghost use Rattle.fixed.specs.Words.{signed_value, word_of, value_of};
ghost use Rattle.buffer.specs.Splice.{splice};

use fixed::Signed;
use rules::LOWEST_WORD;

// Whether the number of s fits n bytes: whether all bytes before the last n are zeros.
pub fn binary_fits(s: &[u8], n: usize) -> bool
    ensures { result ≡ is_done (converted_bytes binary binary n s.now) }
{
    s.len() <= n || s[..s.len() - n].iter().all(|b| *b == 0)
}

// Writes the number of s as n bytes to out, from the place at.
pub fn convert_binary(s: &[u8], n: usize, out: &mut [u8], at: usize)
    requires { (is_done (converted_bytes binary binary n s.now) ≡ true) × (at + n ≤ length out.old) }
    ensures { out.new ≡ splice at (bytes_of (converted_bytes binary binary n s.now)) out.old }
{
    let len = s.len();
    if n < len {
        buffer::put(&s[len - n..], out, at);
    } else {
        buffer::fill(out, at, n - len, 0);
        buffer::put(s, out, at + (n - len));
    }
}

// The number of s, if it is within the conversion ranges.
#[tactic(auto, using(crate::proofs::Binary::word_number, rules::proofs::Digits::spelled_turn))]
pub fn binary_word(s: &[u8]) -> Option<Signed>
    ensures { result ≡ word_of (value_of (meaning binary s.now)) }
{
    let mut n = 0;
    for &b in s {
        n = n * 256 + u64::from(b);
        if u64::from(LOWEST_WORD) < n {
            return None;
        }
    }
    Some(Signed {
        negative: false,
        magnitude: n as u32,
    })
}

// Whether v fits n bytes of format B.
#[tactic(auto, using(crate::proofs::Binary::fits_is, crate::proofs::Binary::never_minus, crate::proofs::Binary::four_hold, crate::proofs::Binary::shifted))]
pub fn binary_fits_word(v: Signed, n: usize) -> bool
    requires { 1 ≤ n }
    ensures { result ≡ is_done (normal binary n (signed_value v)) }
{
    !v.negative && (4 <= n || v.magnitude < 1 << (8 * n))
}

// Writes v as n bytes of format B to out, from the place at.
#[tactic(auto, using(crate::proofs::Binary::word_bytes))]
pub fn write_binary_word(v: Signed, n: usize, out: &mut [u8], at: usize)
    requires { (is_done (normal binary n (signed_value v)) ≡ true) × (at + n ≤ length out.old) }
    ensures { out.new ≡ splice at (bytes_of (normal binary n (signed_value v))) out.old }
{
    fixed::put_number(v.magnitude, n, out, at);
}
