// The syntax of a format: its elements, one step each.
ghost use Rattle.std.specs.Prelude.{◌≡◌, ◌≤◌, ◌<◌, eqb, length, drop, get_or};
ghost use Rattle.rules.specs.Outcome.{is_done};
ghost use Rattle.rules.specs.Characters.{period};
ghost use Rattle.rules.specs.Format.{elements};
ghost use Rattle.format_buffer.specs.Syntax.{parsed, Stepped};

use super::Element;
use super::following::completed;
use super::pieces::Piece;
use super::texts::text_at;
use characters::PERIOD;

// The element at a place, and where its comma or period stands.
pub fn next(f: &[u8], at: usize) -> Option<(Element, usize)>
    requires { at ≤ length f.now }
    ensures { Stepped f.now at (parsed (drop at f.now)) result }
{
    let first = text_at(f, at);
    match first.piece? {
        Piece::Element(e) => completed(f, first.end, e),
        Piece::Length(_) => None,
        Piece::Format(_) => None,
    }
}

// Whether the element before a place is the last: a period stands there.
pub fn is_last(f: &[u8], stop: usize) -> bool
    requires { stop < length f.now }
    ensures { result ≡ eqb (get_or f.now stop 0) period }
{
    f[stop] == PERIOD
}

// Whether a format is good.
pub fn syntax(f: &[u8]) -> bool
    ensures { result ≡ is_done (elements f.now) }
{
    if rules::LONGEST_FORMAT < f.len() {
        return false;
    }
    let mut at = 0;
    while let Some((_, stop)) = next(f, at) {
        if is_last(f, stop) {
            return true;
        }
        at = stop + 1;
    }
    false
}
