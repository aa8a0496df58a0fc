// What puts something into room: it ends at a place or is refused, and where it is asked to write it leaves its bytes there.
#![tactic(auto)]

ghost use Rattle.std.specs.Prelude.{◌≡◌, ◌∷◌, [], true, ◌+◌, ◌-◌, ◌≤◌, ◌<◌, replicate, MatchResult};
ghost use Rattle.rules.specs.Outcome.{done};
ghost use Rattle.rules.specs.declared.Refusal.TheVariants.{BeyondBuffer};
ghost use Rattle.rules.specs.Characters.{space};
ghost use Rattle.rules.specs.Limits.{highest_index};
ghost use Rattle.rules.specs.Lists.{join};
ghost use Rattle.rules.specs.Values.{allowed, null};
ghost use Rattle.value_formats.specs.Formats.{format_at};
ghost use Rattle.filling.specs.Filling.{Roomy, Filling, in_room};

pub mod lengths;
pub mod value;

use rules::Refusal;
use value_formats::Format;

// The place after n bytes, where they end by `end`.
fn room_for(n: usize, at: usize, end: usize) -> Result<usize, Refusal>
    requires { at ≤ end }
    ensures { MatchResult result (λ next. (next ≡ at + n) × (n ≤ end - at)) (λ x. (x ≡ BeyondBuffer) × (end - at < n)) }
{
    if end - at < n {
        Err(Refusal::BeyondBuffer)
    } else {
        Ok(at + n)
    }
}

// A run of n blanks.
#[tactic(auto, using(crate::proofs::Singles::by_room))]
pub fn put_blanks(
    n: usize,
    out: &mut [u8],
    at: usize,
    end: usize,
    write: bool,
) -> Result<usize, Refusal>
    requires { Roomy at end out.old }
    ensures { Filling (in_room (end - at) (done (replicate n space))) at write out.old out.new result }
{
    let next = room_for(n, at, end)?;
    if write {
        buffer::fill(out, at, n, characters::SPACE);
    }
    Ok(next)
}

// Bytes as they are.
#[tactic(auto, using(crate::proofs::Singles::by_room))]
pub fn put_bytes(
    bytes: &[u8],
    out: &mut [u8],
    at: usize,
    end: usize,
    write: bool,
) -> Result<usize, Refusal>
    requires { Roomy at end out.old }
    ensures { Filling (in_room (end - at) (done bytes.now)) at write out.old out.new result }
{
    let next = room_for(bytes.len(), at, end)?;
    if write {
        buffer::put(bytes, out, at);
    }
    Ok(next)
}

// A count, which is one byte.
#[tactic(auto, using(crate::proofs::Singles::by_room))]
pub fn put_count(
    count: u8,
    out: &mut [u8],
    at: usize,
    end: usize,
    write: bool,
) -> Result<usize, Refusal>
    requires { Roomy at end out.old }
    ensures { Filling (in_room (end - at) (done (count ∷ []))) at write out.old out.new result }
{
    let next = room_for(1, at, end)?;
    if write {
        out[at] = count;
    }
    Ok(next)
}

// n nulls, for values that don't exist.
#[tactic(auto, using(crate::proofs::Singles::by_room, crate::proofs::Nulls::by_nulls))]
pub fn put_nulls(
    n: usize,
    format: Format,
    size: usize,
    out: &mut [u8],
    at: usize,
    end: usize,
    write: bool,
) -> Result<usize, Refusal>
    requires { (n ≤ highest_index) × (allowed (format_at format) size ≡ true) × Roomy at end out.old }
    ensures { Filling (in_room (end - at) (done (join (replicate n (null (format_at format) size))))) at write out.old out.new result }
{
    if n == 0 {
        return Ok(at);
    }
    let next = room_for(n * values::null_length(format, size), at, end)?;
    if write {
        values::write_nulls(n, format, size, out, at);
    }
    Ok(next)
}
