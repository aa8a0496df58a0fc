// The five formats: where a value ends, null, normal form, and a value converted from one to another.
#![tactic(auto)]

ghost use Rattle.std.specs.Prelude.{◌≡◌, true, ◌⊎◌, ◌+◌, ◌<◌, ◌≤◌, length, drop, replicate};
ghost use Rattle.rules.specs.Limits.{longest_alpha};
ghost use Rattle.rules.specs.Lists.{join};
ghost use Rattle.rules.specs.Values.{packed, first_value, null, in_normal_form};
ghost use Rattle.buffer.specs.Splice.{splice};
ghost use Rattle.rules.specs.Values as Rules;
ghost use Rattle.values.specs.Formats.{format_at};
ghost use Rattle.values.specs.Places.{Located};
ghost use Rattle.values.specs.Normals.{any_normal};

pub mod conversion;
pub mod numbers;
pub mod texts;

use rules::Refusal;
use value_formats::Format;

// The first value of length 0 at a place.
#[tactic(auto, using(crate::proofs::Cuts::by_place))]
fn first_variable(s: &[u8], at: usize) -> Result<(usize, usize), Refusal>
    requires { at ≤ length s.now }
    ensures { Located s.now at (first_value 0 (drop at s.now)) result }
{
    if at == s.len() {
        return Err(Refusal::BeyondBuffer);
    }
    let count = usize::from(s[at]);
    if count == 0 || rules::LONGEST_ALPHA + 1 < count {
        return Err(Refusal::BadValue);
    }
    if s.len() - at < count {
        return Err(Refusal::BeyondBuffer);
    }
    Ok((at + 1, at + count))
}

// The first value of a length at a place.
#[tactic(auto, using(crate::proofs::Cuts::by_place))]
pub fn first_value(s: &[u8], at: usize, size: usize) -> Result<(usize, usize), Refusal>
    requires { at ≤ length s.now }
    ensures { Located s.now at (first_value size (drop at s.now)) result }
{
    if size == 0 {
        return first_variable(s, at);
    }
    if s.len() - at < size {
        return Err(Refusal::BeyondBuffer);
    }
    Ok((at, at + size))
}

// The length of null, its length byte included.
#[tactic(auto, using(crate::proofs::Nulls::by_null))]
pub fn null_length(format: Format, size: usize) -> usize
    requires { (Rules.allowed (format_at format) size ≡ true) }
    ensures { result ≡ length (null (format_at format) size) }
{
    if size == 0 { 1 } else { size }
}

// What null is filled with; the last byte of P has the sign too.
#[tactic(auto, using(crate::proofs::Nulls::by_null))]
fn null_byte(format: Format, size: usize) -> u8
    requires { (format ≡ Format.Packed → ⊥) × (Rules.allowed (format_at format) size ≡ true) }
    ensures { null (format_at format) size ≡ replicate (length (null (format_at format) size)) result }
{
    if size == 0 {
        return 1;
    }
    match format {
        Format::Alpha => characters::SPACE,
        Format::Unpacked => characters::DIGIT_0,
        _ => 0,
    }
}

// Writes null of format P at a place.
#[tactic(auto, using(crate::proofs::Nulls::by_null))]
fn write_packed_null(size: usize, out: &mut [u8], at: usize)
    requires { (0 < size) × (at + size ≤ length out.old) }
    ensures { out.new ≡ splice at (null packed size) out.old }
{
    let end = at + (size - 1);
    buffer::fill(out, at, size - 1, 0);
    out[end] = 0x0F;
}

// Writes n nulls of format P at a place, one after the other.
#[tactic(auto, using(crate::proofs::Nulls::by_null))]
fn write_packed_nulls(n: usize, size: usize, out: &mut [u8], at: usize)
    requires { (0 < size) × (at + length (join (replicate n (null packed size))) ≤ length out.old) }
    ensures { out.new ≡ splice at (join (replicate n (null packed size))) out.old }
{
    for i in 0..n {
        write_packed_null(size, out, at + i * size);
    }
}

// Writes n nulls at a place, one after the other.
#[tactic(auto, using(crate::proofs::Nulls::by_null, crate::proofs::Numbered::some_size))]
pub fn write_nulls(n: usize, format: Format, size: usize, out: &mut [u8], at: usize)
    requires { (Rules.allowed (format_at format) size ≡ true) × (at + length (join (replicate n (null (format_at format) size))) ≤ length out.old) }
    ensures { out.new ≡ splice at (join (replicate n (null (format_at format) size))) out.old }
{
    if format == Format::Packed {
        write_packed_nulls(n, size, out, at);
    } else {
        buffer::fill(
            out,
            at,
            n * null_length(format, size),
            null_byte(format, size),
        );
    }
}

// Writes null at a place.
#[tactic(auto, using(crate::proofs::Nulls::by_null))]
pub fn write_null(format: Format, size: usize, out: &mut [u8], at: usize)
    requires { (Rules.allowed (format_at format) size ≡ true) × (at + length (null (format_at format) size) ≤ length out.old) }
    ensures { out.new ≡ splice at (null (format_at format) size) out.old }
{
    write_nulls(1, format, size, out, at);
}

// Whether s, the content of a value without its length byte, is in normal form.
#[tactic(auto, using(crate::proofs::Chosen::by_format, crate::proofs::Chosen::own_length, crate::proofs::Chosen::low_normal))]
pub fn is_normal(s: &[u8], format: Format, size: usize) -> bool
    requires { (Rules.allowed (format_at format) size ≡ true) × (((size ≡ 0) × (length s.now ≤ longest_alpha)) ⊎ (size ≡ length s.now)) }
    ensures { result ≡ in_normal_form (format_at format) size s.now }
{
    match format {
        Format::Alpha => texts::is_normal_text(s, size),
        Format::Binary | Format::Fixed => true,
        _ => decimals::is_normal(s, format == Format::Packed),
    }
}

// Whether all bytes of a length are in normal form: those of A, B and F, where the length is not 0.
#[tactic(auto, using(crate::proofs::Normals::by_low))]
pub fn any_bytes(format: Format, size: usize) -> bool
    requires { (Rules.allowed (format_at format) size ≡ true) }
    ensures { result ≡ any_normal (format_at format) size }
{
    size != 0 && matches!(format, Format::Alpha | Format::Binary | Format::Fixed)
}
