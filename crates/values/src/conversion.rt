// A value converted from a format to another: between formats that convert every value, and through a word.
#![tactic(auto, using(crate::proofs::Chosen::by_every))]

ghost use Rattle.std.specs.Prelude.{◌≡◌, true, ◌&&◌, ◌≤◌, length};
ghost use Rattle.rules.specs.Outcome.{is_done};
ghost use Rattle.rules.specs.Limits.{longest_alpha, lowest_word};
ghost use Rattle.rules.specs.Lists.{bytes_of};
ghost use Rattle.rules.specs.Values.{every, allowed, normal, conversion, in_range, converted_bytes};
ghost use Rattle.fixed.specs.Words.{signed_value};
ghost use Rattle.buffer.specs.Splice.{splice};
ghost use Rattle.values.specs.Formats.{format_at, range_kind};
ghost use Rattle.values.specs.Fits.{Convertible, Converting, converted_length};

use super::{numbers, texts};
use fixed::Signed;
use value_formats::Format;

// Whether s fits, where every value converts.
pub fn every_fits(s: &[u8], from: Format, to: Format, n: usize) -> bool
    requires { Convertible from to n s.now × (conversion (format_at from) (format_at to) ≡ every) }
    ensures { result ≡ is_done (converted_bytes (format_at from) (format_at to) n s.now) }
{
    match from {
        Format::Alpha => texts::text_fits(s, n),
        Format::Binary => binaries::binary_fits(s, n),
        Format::Fixed => fixed::fixed_fits(fixed::fixed_word(s), n),
        _ => decimals::fits(s, from == Format::Packed, to == Format::Packed, n),
    }
}

// Whether v lies in a conversion range: that of words, or of those not below zero.
fn within_range(v: Signed, natural: bool) -> bool
    requires { v.magnitude ≤ lowest_word }
    ensures { result ≡ in_range (range_kind natural) (signed_value v) }
{
    if v.negative {
        !natural
    } else {
        v.magnitude <= rules::GREATEST_WORD
    }
}

// Whether v converts in a range of words, and fits.
pub fn word_fits(v: Signed, to: Format, n: usize, natural: bool) -> bool
    requires { (v.magnitude ≤ lowest_word) × (to ≡ Format.Alpha → ⊥) × (allowed (format_at to) n ≡ true) }
    ensures { result ≡ (in_range (range_kind natural) (signed_value v) && is_done (normal (format_at to) n (signed_value v))) }
{
    within_range(v, natural) && numbers::fits_word(v, to, n)
}

// The length of the bytes of a value that is converted: n, or that of the text and its length byte.
pub fn converted_size(s: &[u8], n: usize) -> usize
    requires { length s.now ≤ longest_alpha }
    ensures { result ≡ converted_length n s.now }
{
    if n == 0 { texts::text_length(s) + 1 } else { n }
}

// The value s, where every value converts.
pub fn convert_every(s: &[u8], from: Format, to: Format, n: usize, out: &mut [u8], at: usize)
    requires { Converting from to n s.now at (length out.old) × (conversion (format_at from) (format_at to) ≡ every) }
    ensures { out.new ≡ splice at (bytes_of (converted_bytes (format_at from) (format_at to) n s.now)) out.old }
{
    match from {
        Format::Alpha => texts::convert_text(s, n, out, at),
        Format::Binary => binaries::convert_binary(s, n, out, at),
        Format::Fixed => fixed::write_fixed(fixed::fixed_word(s), n, out, at),
        _ => decimals::convert(s, from == Format::Packed, to == Format::Packed, n, out, at),
    }
}
