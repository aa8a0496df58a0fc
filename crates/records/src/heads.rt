// The head of a record: "VRC" and its version, as it is tested and as it is written.
ghost use Rattle.std.specs.Prelude.{◌≡◌, ◌≤◌, length};
ghost use Rattle.rules.specs.Limits.{record_head_size};
ghost use Rattle.rules.specs.Record.{record_head};
ghost use Rattle.buffer.specs.Splice.{splice};
ghost use Rattle.records.specs.Walk.{is_headed};

// Whether a slice is not too long for a record and has a record's head.
#[tactic(auto, using(std::proofs::lemmas::Bool::Decides::nat_tests, crate::proofs::HeadLaws::head_short), unfolding(crate::specs::Walk::is_headed, rules::specs::Record::record_head))]
pub fn has_head(b: &[u8]) -> bool
    ensures { result ≡ is_headed b.now }
{
    b.len() <= rules::LONGEST_RECORD
        && rules::RECORD_HEAD_SIZE <= b.len()
        && buffer::stands_at(b, 0, b"\xe5\xd9\xc3\x00\x01")
}

// Writes a record's head; the place after it.
#[tactic(auto, unfolding(rules::specs::Record::record_head))]
pub fn put_head(out: &mut [u8]) -> usize
    requires { record_head_size ≤ length out.old }
    ensures { (result ≡ record_head_size) × (out.new ≡ splice 0 record_head out.old) }
{
    buffer::put(b"\xe5\xd9\xc3\x00\x01", out, 0)
}
