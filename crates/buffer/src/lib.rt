// Bytes in a lent slice: put, filled, compared and found. A write's contract is one equation, `splice`, which settles every byte.
#![tactic(auto)]

ghost use Rattle.std.specs.Prelude.{◌≡◌, ◌+◌, ◌≤◌, length, replicate, take, drop};
ghost use Rattle.rules.specs.Lists.{same};
ghost use Rattle.buffer.specs.Splice.{splice};
ghost use Rattle.buffer.specs.Search.{upto_first};

// All of src, to out from `at`; the place after it. A byte a turn is compiled to memcpy: `copy_from_slice` would be memmove, which the header
// of the library does not have it call.
pub fn put(src: &[u8], out: &mut [u8], at: usize) -> usize
    requires { at + length src.now ≤ length out.old }
    ensures { (result ≡ at + length src.now) × (out.new ≡ splice at src.now out.old) }
{
    for i in 0..src.len() {
        out[at + i] = src[i];
    }
    at + src.len()
}

// The byte b, n times, to out from `at`.
#[tactic(auto, unfolding(crate::specs::Splice::splice))]
pub fn fill(out: &mut [u8], at: usize, n: usize, b: u8)
    requires { at + n ≤ length out.old }
    ensures { out.new ≡ splice at (replicate n b) out.old }
{
    out[at..at + n].fill(b);
}

// Whether t stands in s from `at`.
#[tactic(auto, using(crate::proofs::Compared::same_pointwise))]
pub fn stands_at(s: &[u8], at: usize, t: &[u8]) -> bool
    requires { at + length t.now ≤ length s.now }
    ensures { result ≡ same (take (length t.now) (drop at s.now)) t.now }
{
    &s[at..at + t.len()] == t
}

// The first place from `at` that has the byte b, or the end.
pub fn find(s: &[u8], at: usize, b: u8) -> usize
    requires { at ≤ length s.now }
    ensures { (result ≡ at + upto_first b (drop at s.now)) × (at ≤ result) × (result ≤ length s.now) }
{
    let rest = &s[at..];
    at + rest.iter().position(|c| *c == b).unwrap_or(rest.len())
}
