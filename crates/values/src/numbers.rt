// Numbers of formats B, F, P and U, by the format.
#![tactic(auto, using(crate::proofs::Chosen::by_format))]

ghost use Rattle.std.specs.Prelude.{◌≡◌, true, ◌+◌, ◌≤◌, length};
ghost use Rattle.rules.specs.Outcome.{is_done};
ghost use Rattle.rules.specs.Lists.{bytes_of};
ghost use Rattle.rules.specs.Values.{allowed, meaning, normal};
ghost use Rattle.fixed.specs.Words.{signed_value, word_of, value_of};
ghost use Rattle.buffer.specs.Splice.{splice};
ghost use Rattle.values.specs.Formats.{format_at};

use fixed::Signed;
use value_formats::Format;

// Whether s means something.
pub fn is_value(s: &[u8], format: Format) -> bool
    ensures { result ≡ is_done (meaning (format_at format) s.now) }
{
    match format {
        Format::Packed => decimals::is_value(s, true),
        Format::Unpacked => decimals::is_value(s, false),
        _ => true,
    }
}

// The word that the number of s is.
pub fn to_word(s: &[u8], format: Format) -> Option<Signed>
    requires { (format ≡ Format.Alpha → ⊥) × (allowed (format_at format) (length s.now) ≡ true) × (is_done (meaning (format_at format) s.now) ≡ true) }
    ensures { result ≡ word_of (value_of (meaning (format_at format) s.now)) }
{
    match format {
        Format::Binary => binaries::binary_word(s),
        Format::Fixed => Some(fixed::fixed_word(s)),
        _ => decimals::to_word(s, format == Format::Packed),
    }
}

// Whether v fits n bytes of a format. Here and below two comparisons are made, since a `match` becomes a table of jumps.
pub fn fits_word(v: Signed, format: Format, n: usize) -> bool
    requires { (format ≡ Format.Alpha → ⊥) × (allowed (format_at format) n ≡ true) }
    ensures { result ≡ is_done (normal (format_at format) n (signed_value v)) }
{
    if format == Format::Binary {
        return binaries::binary_fits_word(v, n);
    }
    if format == Format::Fixed {
        return fixed::fixed_fits(v, n);
    }
    decimals::fits_word(v, format == Format::Packed, n)
}

// Writes v in n bytes of a format, which it fits.
pub fn write_word(v: Signed, format: Format, n: usize, out: &mut [u8], at: usize)
    requires { (format ≡ Format.Alpha → ⊥) × (allowed (format_at format) n ≡ true) × (is_done (normal (format_at format) n (signed_value v)) ≡ true) × (at + n ≤ length out.old) }
    ensures { out.new ≡ splice at (bytes_of (normal (format_at format) n (signed_value v))) out.old }
{
    if format == Format::Binary {
        binaries::write_binary_word(v, n, out, at);
    } else if format == Format::Fixed {
        fixed::write_fixed(v, n, out, at);
    } else {
        decimals::write_word(v, format == Format::Packed, n, out, at);
    }
}
