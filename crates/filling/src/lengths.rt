// Document 02, M-103: how long a value is that a length does not hold.
ghost use Rattle.std.specs.Prelude.{◌≡◌, ◌≤◌, length};
ghost use Rattle.rules.specs.Limits.{longest_alpha};
ghost use Rattle.rules.specs.Outcome.{with_needed};
ghost use Rattle.rules.specs.Numbers.{refusal};
ghost use Rattle.rules.specs.Values.{alpha, would_hold, smallest_length};
ghost use Rattle.value_formats.specs.Formats.{format_at};
ghost use Rattle.values.specs.Fits.{Converts};

use super::value;
use rules::Refusal;
use value_formats::Format;

// Room for every value, its length byte included.
const ROOM: usize = rules::LONGEST_ALPHA + 1;

// Whether length n of a format would hold s.
fn would_hold(s: &[u8], own: Format, format: Format, n: usize) -> bool
    requires { Converts own format s.now }
    ensures { result ≡ would_hold (format_at own) (format_at format) s.now n }
{
    if !value_formats::allowed(format, n) {
        return false;
    }
    let mut room = [0u8; ROOM];
    value::put_value(s, own, format, n, &mut room, 0, ROOM, false).is_ok()
}

// The smallest length from 1 up that holds the text of s.
#[tactic(auto, using(crate::proofs::Smallest::text_smallest))]
fn text_needs(s: &[u8]) -> usize
    requires { length s.now ≤ longest_alpha }
    ensures { result ≡ smallest_length alpha alpha s.now }
{
    values::texts::text_length(s).max(1)
}

// The smallest length from 1 up of a format that would hold s, or 0.
#[tactic(auto, using(crate::proofs::Smallest::smallest_none, crate::proofs::Smallest::smallest_is))]
fn first_length(s: &[u8], own: Format, format: Format) -> usize
    requires { Converts own format s.now }
    ensures { result ≡ smallest_length (format_at own) (format_at format) s.now }
{
    for n in 1..=value_formats::longest(format) {
        if would_hold(s, own, format, n) {
            return n;
        }
    }
    0
}

// The same, without a search where none is needed: of a text its length tells, and outside the conversion range the longest length does not
// hold the value, so that none does.
#[tactic(auto, using(crate::proofs::Smallest::by_search))]
fn smallest_length(s: &[u8], own: Format, format: Format) -> usize
    requires { Converts own format s.now }
    ensures { result ≡ smallest_length (format_at own) (format_at format) s.now }
{
    if own == Format::Alpha {
        return text_needs(s);
    }
    if !would_hold(s, own, format, value_formats::longest(format)) {
        return 0;
    }
    first_length(s, own, format)
}

// The refusal x of a value that is read: with 9 it says the smallest length that would have held s.
#[tactic(auto, using(rules::proofs::Lengths::smallest_below))]
pub fn with_needed(x: Refusal, s: &[u8], own: Format, format: Format) -> Refusal
    requires { Converts own format s.now }
    ensures { refusal result ≡ with_needed (smallest_length (format_at own) (format_at format) s.now) (refusal x) }
{
    match x {
        Refusal::OutOfRange(_) => Refusal::OutOfRange(smallest_length(s, own, format) as u8),
        _ => x,
    }
}
