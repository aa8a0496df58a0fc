// Format A: bytes without trailing blanks.
#![tactic(auto, using(crate::proofs::Strip::by_length))]

ghost use Rattle.std.specs.Prelude.{◌≡◌, true, ◌⊎◌, ◌∷◌, ◌++◌, suc, ◌+◌, ◌-◌, ◌≤◌, length, take, replicate};
ghost use Rattle.rules.specs.Characters.{space};
ghost use Rattle.rules.specs.Outcome.{is_done};
ghost use Rattle.rules.specs.Limits.{longest_alpha};
ghost use Rattle.rules.specs.Lists.{Bytes, bytes_of};
ghost use Rattle.rules.specs.Values.{text, alpha, strip, normal, converted_bytes, in_normal_form};
ghost use Rattle.buffer.specs.Splice.{splice};

use characters::SPACE;

// The length of s without trailing blanks.
pub fn text_length(s: &[u8]) -> usize
    ensures { (result ≤ length s.now) × (strip s.now ≡ take result s.now) }
{
    for j in (0..s.len()).rev() {
        if s[j] != SPACE {
            return j + 1;
        }
    }
    0
}

// Whether a text of len bytes fits length n.
pub fn length_fits(len: usize, n: usize) -> bool
    ensures { (t : Bytes) → length t ≡ len → result ≡ is_done (normal alpha n (text t)) }
{
    if n == 0 {
        len <= rules::LONGEST_ALPHA
    } else {
        len <= n
    }
}

// The bytes that a text of len bytes takes at length n, which it fits.
pub fn length_at(len: usize, n: usize) -> usize
    requires { len ≤ longest_alpha }
    ensures { (t : Bytes) → length t ≡ len → is_done (normal alpha n (text t)) ≡ true → result ≡ length (bytes_of (normal alpha n (text t))) }
{
    if n == 0 { len + 1 } else { n }
}

// Whether the text of s fits length n.
pub fn text_fits(s: &[u8], n: usize) -> bool
    ensures { result ≡ is_done (converted_bytes alpha alpha n s.now) }
{
    length_fits(text_length(s), n)
}

// A length byte, which counts itself, and t after it.
fn put_counted(t: &[u8], out: &mut [u8], at: usize)
    requires { (length t.now ≤ longest_alpha) × (at + 1 + length t.now ≤ length out.old) }
    ensures { out.new ≡ splice at (suc (length t.now) ∷ t.now) out.old }
{
    let count = t.len() + 1;
    out[at] = count as u8;
    buffer::put(t, out, at + 1);
}

// t, and blanks after it up to length n.
fn put_padded(t: &[u8], n: usize, out: &mut [u8], at: usize)
    requires { (length t.now ≤ n) × (at + n ≤ length out.old) }
    ensures { out.new ≡ splice at (t.now ++ replicate (n - length t.now) space) out.old }
{
    let next = buffer::put(t, out, at);
    buffer::fill(out, next, n - t.len(), SPACE);
}

// Writes the text t, which fits length n, at that length.
pub fn put_at(t: &[u8], n: usize, out: &mut [u8], at: usize)
    requires { (is_done (normal alpha n (text t.now)) ≡ true) × (at + length (bytes_of (normal alpha n (text t.now))) ≤ length out.old) }
    ensures { out.new ≡ splice at (bytes_of (normal alpha n (text t.now))) out.old }
{
    if n == 0 {
        put_counted(t, out, at);
    } else {
        put_padded(t, n, out, at);
    }
}

// Writes the text of s, which fits length n, at that length.
pub fn convert_text(s: &[u8], n: usize, out: &mut [u8], at: usize)
    requires { (is_done (converted_bytes alpha alpha n s.now) ≡ true) × (at + length (bytes_of (converted_bytes alpha alpha n s.now)) ≤ length out.old) }
    ensures { out.new ≡ splice at (bytes_of (converted_bytes alpha alpha n s.now)) out.old }
{
    let len = text_length(s);
    put_at(&s[..len], n, out, at);
}

// Whether s is in normal form: at length 0 it has no trailing blank.
pub fn is_normal_text(s: &[u8], n: usize) -> bool
    requires { ((n ≡ 0) × (length s.now ≤ longest_alpha)) ⊎ (n ≡ length s.now) }
    ensures { result ≡ in_normal_form alpha n s.now }
{
    n != 0 || text_length(s) == s.len()
}
