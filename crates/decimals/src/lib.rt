// Formats P and U: is it a value, is it in normal form, does it fit, and its bytes, between P and U and to and from numbers.
// `packed` says that a value is P and not U; `target` says the same of the bytes to write.
// A loop is chosen or made for one format, so that no turn of it asks which format it is.
#![tactic(auto)]

ghost use Rattle.std.specs.Prelude.{◌≡◌, true, false, ◌+◌, ◌-◌, ◌*◌, ◌/◌, ◌%◌, ◌≤◌, ◌<◌, length};
ghost use Rattle.rules.specs.Outcome.{is_done};
ghost use Rattle.rules.specs.Limits.{longest_alpha, longest_unpacked};
ghost use Rattle.rules.specs.Lists.{bytes_of};
ghost use Rattle.rules.specs.Values.{meaning, normal, converted_bytes, in_normal_form, sign_written};
ghost use Rattle.buffer.specs.Splice.{splice};
ghost use Rattle.fixed.specs.Words.{signed_value, word_of, value_of};
ghost use Rattle.decimals.specs.Decimals.{decimal_format, last_written};

mod conversion;
mod digits;
mod numbers;
mod signs;
mod tests;

use fixed::Signed;
use rules::LOWEST_WORD;

// Whether s is a value.
#[tactic(auto, using(crate::proofs::Meanings::no_bytes))]
pub fn is_value(s: &[u8], packed: bool) -> bool
    ensures { result ≡ is_done (meaning (decimal_format packed) s.now) }
{
    match s.split_last() {
        Some((last, front)) => tests::all_inner(front, packed) && tests::last_byte(*last, packed),
        None => false,
    }
}

// Whether s is in normal form.
pub fn is_normal(s: &[u8], packed: bool) -> bool
    requires { (0 < length s.now) × (length s.now ≤ longest_alpha) }
    ensures { result ≡ in_normal_form (decimal_format packed) (length s.now) s.now }
{
    is_value(s, packed) && signs::written_sign(tests::negative(s, packed)) == tests::sign(s, packed)
}

// Whether the value s fits n bytes.
pub fn fits(s: &[u8], packed: bool, target: bool, n: usize) -> bool
    requires { (is_done (meaning (decimal_format packed) s.now) ≡ true) × (length s.now ≤ longest_alpha) × (0 < n) × (n ≤ longest_unpacked) }
    ensures { result ≡ is_done (converted_bytes (decimal_format packed) (decimal_format target) n s.now) }
{
    digits::within(s, packed, digits::digit_count(target, n))
}

// The last byte in normal form: a digit and the sign.
#[tactic(auto, unfolding(crate::specs::Decimals::last_written, rules::specs::Values::sign_written))]
fn last_written(d: u8, negative: bool, target: bool) -> u8
    requires { d < 10 }
    ensures { result ≡ last_written target d (sign_written negative) }
{
    let sign = signs::written_sign(negative);
    if target { d * 16 + sign } else { sign * 16 + d }
}

// Writes the value s, which fits, as n bytes to out, from the place at.
pub fn convert(s: &[u8], packed: bool, target: bool, n: usize, out: &mut [u8], at: usize)
    requires { (is_done (converted_bytes (decimal_format packed) (decimal_format target) n s.now) ≡ true) × (length s.now ≤ longest_alpha) × (0 < n) × (n ≤ longest_unpacked) × (at + n ≤ length out.old) }
    ensures { out.new ≡ splice at (bytes_of (converted_bytes (decimal_format packed) (decimal_format target) n s.now)) out.old }
{
    out[at + (n - 1)] = last_written(
        digits::last_digit(s, packed),
        tests::negative(s, packed),
        target,
    );
    conversion::convert_digits(s, packed, target, n, out, at);
}

// The number that s means.
pub fn to_word(s: &[u8], packed: bool) -> Option<Signed>
    requires { (is_done (meaning (decimal_format packed) s.now) ≡ true) × (length s.now ≤ longest_alpha) }
    ensures { result ≡ word_of (value_of (meaning (decimal_format packed) s.now)) }
{
    let magnitude = numbers::reckoned(s, packed);
    if u64::from(LOWEST_WORD) < magnitude {
        return None;
    }
    Some(Signed {
        negative: numbers::below_zero(magnitude, tests::sign(s, packed)),
        magnitude: magnitude as u32,
    })
}

// Whether the number v fits n bytes.
pub fn fits_word(v: Signed, packed: bool, n: usize) -> bool
    requires { (0 < n) × (n ≤ longest_unpacked) }
    ensures { result ≡ is_done (normal (decimal_format packed) n (signed_value v)) }
{
    let m = digits::digit_count(packed, n);
    10 <= m || v.magnitude < numbers::power_of_ten(m)
}

// Writes the number v, which fits, as n bytes to out, from the place at.
pub fn write_word(v: Signed, packed: bool, n: usize, out: &mut [u8], at: usize)
    requires { (is_done (normal (decimal_format packed) n (signed_value v)) ≡ true) × (0 < n) × (n ≤ longest_unpacked) × (at + n ≤ length out.old) }
    ensures { out.new ≡ splice at (bytes_of (normal (decimal_format packed) n (signed_value v))) out.old }
{
    let x = v.magnitude;
    out[at + (n - 1)] = last_written((x % 10) as u8, v.negative, packed);
    if packed {
        numbers::put_digits::<true>(x / 10, n - 1, out, at);
    } else {
        numbers::put_digits::<false>(x / 10, n - 1, out, at);
    }
}
