// The format and the length in effect.
ghost use Rattle.std.specs.Prelude.{◌≡◌, true};
ghost use Rattle.rules.specs.Values.{allowed};
ghost use Rattle.value_formats.specs.Formats.{format_at};
ghost use Rattle.uses.specs.Effect.{FormatInEffect, LengthInEffect, Asks};

use format_buffer::Named;
use value_formats::Format;

// The letter's, which is no format's for G and W; or the field's own.
#[tactic(auto, using(crate::proofs::Effects::letters, crate::proofs::Effects::own_format))]
fn format_in_effect(format: Format, given: Named) -> Option<Format>
    ensures { FormatInEffect format given result }
{
    match given.letter {
        Some(letter) => value_formats::format_of(letter),
        None => Some(format),
    }
}

#[tactic(auto, unfolding(rules::specs::Use::length_in_effect))]
fn length_in_effect(size: usize, given: Named) -> usize
    ensures { LengthInEffect size given result }
{
    match given.length {
        Some(length) => usize::from(length),
        None => size,
    }
}

// The length in effect must be allowed for the format in effect, and the formats convert.
#[tactic(auto, using(crate::proofs::Effects::override_laws))]
fn overridden(format: Format, size: usize, n: Named) -> Option<(Format, usize)>
    ensures { Asks format size n result }
{
    let to = format_in_effect(format, n)?;
    let length = length_in_effect(size, n);
    if value_formats::allowed(to, length) && value_formats::converts(format, to) {
        return Some((to, length));
    }
    None
}

// Omitted ones are the field's standard, which a table has only where they suit each other.
#[tactic(auto, using(crate::proofs::Effects::standard_laws))]
pub fn asked(format: Format, size: usize, n: Named) -> Option<(Format, usize)>
    requires { allowed (format_at format) size ≡ true }
    ensures { Asks format size n result }
{
    if n.length.is_none() && n.letter.is_none() {
        return Some((format, size));
    }
    overridden(format, size, n)
}
