// The digits of a value before its last: copied within a format, packed from U to P, unpacked from P to U.
ghost use Rattle.std.specs.Prelude.{◌≡◌, true, false, ◌+◌, ◌-◌, ◌*◌, ◌/◌, ◌%◌, ◌≤◌, ◌<◌, length};
ghost use Rattle.rules.specs.Outcome.{is_done};
ghost use Rattle.rules.specs.Limits.{longest_alpha};
ghost use Rattle.rules.specs.Values.{meaning};
ghost use Rattle.buffer.specs.Splice.{splice};
ghost use Rattle.decimals.specs.Decimals.{decimal_format, magnitude_of, Readable, inner_written, front};
ghost use Rattle.decimals.specs.Conversion.{first_spelled};

use super::digits;

// Copies the bytes of a value before its last to the n − 1 bytes from the place at: the last of them, or zeros and then all.
fn copy_digits(s: &[u8], packed: bool, n: usize, out: &mut [u8], at: usize)
    requires { (is_done (meaning (decimal_format packed) s.now) ≡ true) × (0 < n) × (at + n ≤ length out.old) }
    ensures { out.new ≡ splice at (front packed (n - 1) (magnitude_of packed s.now / 10)) out.old }
{
    let len = s.len();
    if n < len {
        buffer::put(&s[len - n..len - 1], out, at);
    } else {
        buffer::fill(out, at, n - len, digits::zero_byte(packed));
        buffer::put(&s[..len - 1], out, at + (n - len));
    }
}

// The last two of the first j digits of U, as a byte of P.
#[tactic(auto, using(crate::proofs::Converted::pair_none, crate::proofs::Converted::pair_one, crate::proofs::Converted::pair_two))]
fn last_pair(s: &[u8], j: usize) -> u8
    requires { Readable false s.now × (j ≤ length s.now) }
    ensures { result ≡ inner_written true (first_spelled false s.now j % 100) }
{
    if 1 < j {
        s[j - 2] % 16 * 16 + s[j - 1] % 16
    } else if j == 1 {
        s[0] % 16
    } else {
        0
    }
}

// Packs the digits of U before the last into the n − 1 bytes from the place at.
fn pack_digits(s: &[u8], n: usize, out: &mut [u8], at: usize)
    requires { Readable false s.now × (0 < n) × (at + n ≤ length out.old) }
    ensures { out.new ≡ splice at (front true (n - 1) (magnitude_of false s.now / 10)) out.old }
{
    let mut j = s.len() - 1;
    for i in (0..n - 1).rev() {
        out[at + i] = last_pair(s, j);
        j = j.saturating_sub(2);
    }
}

// The last of the first j digits of P.
#[tactic(auto, using(crate::proofs::Converted::half_none, crate::proofs::Converted::half_low, crate::proofs::Converted::half_high))]
fn last_half(s: &[u8], j: usize) -> u8
    requires { Readable true s.now × (j < 2 * length s.now) }
    ensures { result ≡ first_spelled true s.now j % 10 }
{
    if j == 0 {
        return 0;
    }
    let b = s[(j - 1) / 2];
    if j % 2 == 0 { b % 16 } else { b / 16 }
}

// Unpacks the digits of P before the last into the n − 1 bytes from the place at.
fn unpack_digits(s: &[u8], n: usize, out: &mut [u8], at: usize)
    requires { Readable true s.now × (0 < n) × (at + n ≤ length out.old) }
    ensures { out.new ≡ splice at (front false (n - 1) (magnitude_of true s.now / 10)) out.old }
{
    let mut j = 2 * s.len() - 2;
    for i in (0..n - 1).rev() {
        out[at + i] = 0xF0 + last_half(s, j);
        j = j.saturating_sub(1);
    }
}

// Writes the digits of the value s before the last to the n − 1 bytes from the place at.
pub fn convert_digits(s: &[u8], packed: bool, target: bool, n: usize, out: &mut [u8], at: usize)
    requires { (is_done (meaning (decimal_format packed) s.now) ≡ true) × (length s.now ≤ longest_alpha) × (0 < n) × (at + n ≤ length out.old) }
    ensures { out.new ≡ splice at (front target (n - 1) (magnitude_of packed s.now / 10)) out.old }
{
    if packed == target {
        copy_digits(s, packed, n, out, at);
    } else if target {
        pack_digits(s, n, out, at);
    } else {
        unpack_digits(s, n, out, at);
    }
}
