// A stored count. How many bytes it has is known here alone: it is tested, read, passed over and written by these functions.
ghost use Rattle.std.specs.Prelude.{◌≡◌, ◌+◌, ◌≤◌, ◌<◌, length};
ghost use Rattle.rules.specs.Limits.{greatest_count, count_size};
ghost use Rattle.rules.specs.Record.{count_bytes};
ghost use Rattle.buffer.specs.Splice.{splice};
ghost use Rattle.records.specs.Counts.{has_count, count_at, greatest_byte};

// Whether a count stands at a place, and is not over its limit.
#[tactic(auto, using(std::proofs::lemmas::Bool::Decides::nat_tests), unfolding(crate::specs::Counts::has_count))]
pub fn has_count(b: &[u8], at: usize) -> bool
    ensures { result ≡ has_count b.now at }
{
    at < b.len() && usize::from(b[at]) <= rules::GREATEST_COUNT
}

// The count at a place.
pub fn count_at(b: &[u8], at: usize) -> usize
    requires { at < length b.now }
    ensures { (result ≡ count_at b.now at) × (result ≤ greatest_byte) }
{
    usize::from(b[at])
}

// The place after the count at a place.
pub fn after_count(b: &[u8], at: usize) -> usize
    requires { at < length b.now }
    ensures { result ≡ at + count_size }
{
    at + rules::COUNT_SIZE
}

// Writes a count; the place after it.
#[tactic(auto, using(buffer::proofs::Laws::set_splice), unfolding(rules::specs::Record::count_bytes))]
pub fn put_count(n: usize, out: &mut [u8], at: usize) -> usize
    requires { (n ≤ greatest_count) × (at + count_size ≤ length out.old) }
    ensures { (result ≡ at + count_size) × (out.new ≡ splice at (count_bytes n) out.old) }
{
    out[at] = n as u8;
    at + rules::COUNT_SIZE
}
