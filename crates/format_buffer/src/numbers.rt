// Numbers of one to three digits, and indexes and ranges of them, between two places of a format.
ghost use Rattle.std.specs.Prelude.{◌≡◌, true, ◌-◌, ◌≤◌, ◌<◌, length};
ghost use Rattle.rules.specs.Characters.{digit, digit_0};
ghost use Rattle.rules.specs.Format.{number_first, index_first, range_to, range_end};
ghost use Rattle.format_buffer.specs.Part.{part};
ghost use Rattle.format_buffer.specs.Elements.{indexing_of, SmallIndexing};
ghost use Rattle.format_buffer.specs.Numbers.{Numbered, ReadsIndexes, byte_alone};

use super::{Indexing, Scope};
use characters::{DIGIT_0, HYPHEN, LETTER_N, is_digit};

pub fn digit_of(b: u8) -> u16
    requires { digit b ≡ true }
    ensures { (result ≡ b - digit_0) × (result < 10) }
{
    u16::from(b - DIGIT_0)
}

#[tactic(auto, using(crate::proofs::Digits::read_many))]
pub fn number_first(f: &[u8], at: usize, upto: usize) -> Option<(u16, usize)>
    requires { (at ≤ upto) × (upto ≤ length f.now) }
    ensures { Numbered f.now at upto (number_first (part f.now at upto)) result }
{
    if at == upto {
        return None;
    }
    let a = f[at];
    if !is_digit(a) {
        return None;
    }
    let mut n = digit_of(a);
    for i in at + 1..upto {
        let b = f[i];
        if !is_digit(b) {
            return Some((n, i));
        }
        if i - at == rules::MOST_DIGITS {
            return None;
        }
        n = n * 10 + digit_of(b);
    }
    Some((n, upto))
}

// A number, or N.
pub fn index_first(f: &[u8], at: usize, upto: usize) -> Option<(Indexing, usize)>
    requires { (at ≤ upto) × (upto ≤ length f.now) }
    ensures { ReadsIndexes f.now at upto (index_first (part f.now at upto)) result }
{
    if at == upto {
        return None;
    }
    if f[at] == LETTER_N {
        return Some((Indexing::LAST, at + 1));
    }
    let (n, p) = number_first(f, at, upto)?;
    let index = Indexing {
        from: n,
        upto: n,
        scope: Scope::AsWritten,
    };
    Some((index, p))
}

// The range that begins with an index, which was read before the hyphen before `at`.
fn range_to(f: &[u8], at: usize, upto: usize, x: Indexing) -> Option<(Indexing, usize)>
    requires { (at ≤ upto) × (upto ≤ length f.now) × SmallIndexing x }
    ensures { ReadsIndexes f.now at upto (range_to (indexing_of x) (part f.now at upto)) result }
{
    if x.scope != Scope::AsWritten {
        return None;
    }
    let (y, p) = index_first(f, at, upto)?;
    if y.scope == Scope::AsWritten {
        return Some((Indexing { upto: y.upto, ..x }, p));
    }
    if x.from != 1 {
        return None;
    }
    let all = Indexing {
        from: 1,
        upto: 1,
        scope: Scope::UpToLast,
    };
    Some((all, p))
}

// An index, which was read before `at`; or where a hyphen follows, the range that begins with it.
pub fn range_end(f: &[u8], at: usize, upto: usize, x: Indexing) -> Option<(Indexing, usize)>
    requires { (at ≤ upto) × (upto ≤ length f.now) × SmallIndexing x }
    ensures { ReadsIndexes f.now at upto (range_end (indexing_of x) (part f.now at upto)) result }
{
    if at == upto {
        return Some((x, at));
    }
    if f[at] != HYPHEN {
        return Some((x, at));
    }
    range_to(f, at + 1, upto, x)
}

// Whether the bytes from one place up to another are the byte c and nothing more.
pub fn alone(f: &[u8], at: usize, upto: usize, c: u8) -> bool
    requires { (at ≤ upto) × (upto ≤ length f.now) }
    ensures { result ≡ byte_alone c (part f.now at upto) }
{
    upto - at == 1 && f[at] == c
}
