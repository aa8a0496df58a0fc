// One value into room, at a format and a length.
#![tactic(auto, using(crate::proofs::Singles::by_value))]

ghost use Rattle.std.specs.Prelude.{◌≡◌, true, ◌-◌, ◌≤◌, length};
ghost use Rattle.rules.specs.Limits.{longest_alpha};
ghost use Rattle.rules.specs.Values.{alpha, every, conversion, converts, converted_bytes};
ghost use Rattle.value_formats.specs.Formats.{format_at};
ghost use Rattle.values.specs.Formats.{range_kind};
ghost use Rattle.values.specs.Fits.{Convertible};
ghost use Rattle.filling.specs.Filling.{Roomy, Filling, in_room};

use super::room_for;
use rules::Refusal;
use value_formats::{Format, Kind};

// A value of format A, at a length: its text is found once.
#[tactic(auto, using(crate::proofs::Values::by_text))]
fn put_alpha(
    s: &[u8],
    size: usize,
    out: &mut [u8],
    at: usize,
    end: usize,
    write: bool,
) -> Result<usize, Refusal>
    requires { (length s.now ≤ longest_alpha) × Roomy at end out.old }
    ensures { Filling (in_room (end - at) (converted_bytes alpha alpha size s.now)) at write out.old out.new result }
{
    let len = values::texts::text_length(s);
    if !values::texts::length_fits(len, size) {
        return Err(Refusal::OutOfRange(0));
    }
    let next = room_for(values::texts::length_at(len, size), at, end)?;
    if write {
        values::texts::put_at(&s[..len], size, out, at);
    }
    Ok(next)
}

// A value, where every value converts.
fn put_every(
    s: &[u8],
    own: Format,
    format: Format,
    size: usize,
    out: &mut [u8],
    at: usize,
    end: usize,
    write: bool,
) -> Result<usize, Refusal>
    requires { Convertible own format size s.now × (conversion (format_at own) (format_at format) ≡ every) × Roomy at end out.old }
    ensures { Filling (in_room (end - at) (converted_bytes (format_at own) (format_at format) size s.now)) at write out.old out.new result }
{
    if !values::conversion::every_fits(s, own, format, size) {
        return Err(Refusal::OutOfRange(0));
    }
    let next = room_for(values::conversion::converted_size(s, size), at, end)?;
    if write {
        values::conversion::convert_every(s, own, format, size, out, at);
    }
    Ok(next)
}

// A value, where a range of words converts: it is decoded once.
#[tactic(auto, using(crate::proofs::Values::by_word))]
fn put_word(
    s: &[u8],
    own: Format,
    format: Format,
    size: usize,
    natural: bool,
    out: &mut [u8],
    at: usize,
    end: usize,
    write: bool,
) -> Result<usize, Refusal>
    requires { Convertible own format size s.now × (conversion (format_at own) (format_at format) ≡ range_kind natural) × Roomy at end out.old }
    ensures { Filling (in_room (end - at) (converted_bytes (format_at own) (format_at format) size s.now)) at write out.old out.new result }
{
    let v = values::numbers::to_word(s, own).ok_or(Refusal::OutOfRange(0))?;
    if !values::conversion::word_fits(v, format, size, natural) {
        return Err(Refusal::OutOfRange(0));
    }
    let next = room_for(size, at, end)?;
    if write {
        values::numbers::write_word(v, format, size, out, at);
    }
    Ok(next)
}

// A value that exists, by its content, at the format and length in effect.
#[tactic(auto, using(crate::proofs::Values::by_kind, crate::proofs::Singles::by_value))]
pub fn put_value(
    s: &[u8],
    own: Format,
    format: Format,
    size: usize,
    out: &mut [u8],
    at: usize,
    end: usize,
    write: bool,
) -> Result<usize, Refusal>
    requires { Convertible own format size s.now × (converts (format_at own) (format_at format) ≡ true) × Roomy at end out.old }
    ensures { Filling (in_room (end - at) (converted_bytes (format_at own) (format_at format) size s.now)) at write out.old out.new result }
{
    if own == Format::Alpha {
        return put_alpha(s, size, out, at, end, write);
    }
    match value_formats::conversion(own, format) {
        Kind::Every => put_every(s, own, format, size, out, at, end, write),
        kind => put_word(
            s,
            own,
            format,
            size,
            kind == Kind::Natural,
            out,
            at,
            end,
            write,
        ),
    }
}
