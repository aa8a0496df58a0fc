// The digits of a value: how many there are, the last, and whether those before it are zeros.
ghost use Rattle.std.specs.Prelude.{◌≡◌, ◌-◌, ◌*◌, ◌/◌, ◌%◌, ◌≤◌, ◌<◌, ◌^◌, eqb, ltb, length, take};
ghost use Rattle.rules.specs.Limits.{longest_alpha};
ghost use Rattle.rules.specs.Lists.{all};
ghost use Rattle.decimals.specs.Decimals.{magnitude_of, Readable, places, inner_written};

// How many digits n bytes hold.
#[tactic(auto, unfolding(crate::specs::Decimals::places))]
pub fn digit_count(packed: bool, n: usize) -> usize
    requires { (0 < n) × (n ≤ longest_alpha) }
    ensures { result ≡ places packed n }
{
    if packed { 2 * n - 1 } else { n }
}

// A byte before the last whose digits are zeros.
#[tactic(auto, unfolding(crate::specs::Decimals::inner_written))]
pub fn zero_byte(packed: bool) -> u8
    ensures { result ≡ inner_written packed 0 }
{
    if packed { 0 } else { 0xF0 }
}

// The last digit.
#[tactic(auto, using(crate::proofs::Before::packed_last_digit, crate::proofs::Before::unpacked_last_digit))]
pub fn last_digit(s: &[u8], packed: bool) -> u8
    requires { Readable packed s.now }
    ensures { result ≡ magnitude_of packed s.now % 10 }
{
    let b = s[s.len() - 1];
    if packed { b / 16 } else { b % 16 }
}

// Whether the digits of the first n bytes are zeros; from the right, where another digit is found sooner.
pub fn zeros_before(s: &[u8], packed: bool, n: usize) -> bool
    requires { n ≤ length s.now }
    ensures { result ≡ all (λ b. eqb b (inner_written packed 0)) (take n s.now) }
{
    let zeros = zero_byte(packed);
    s[..n].iter().rev().all(|b| *b == zeros)
}

// Whether the first k digits are zeros, so that the magnitude has no more digits than come after them. A byte of P holds two.
#[tactic(auto, unfolding(crate::specs::Decimals::places))]
fn leading_zeros(s: &[u8], packed: bool, k: usize) -> bool
    requires { Readable packed s.now × (k ≤ places packed (length s.now)) }
    ensures { result ≡ ltb (magnitude_of packed s.now) (10 ^ (places packed (length s.now) - k)) }
{
    if packed {
        s[..k / 2].iter().all(|b| *b == 0) && (k % 2 == 0 || s[k / 2] < 16)
    } else {
        s[..k].iter().all(|b| *b % 16 == 0)
    }
}

// Whether the magnitude has at most m digits.
pub fn within(s: &[u8], packed: bool, m: usize) -> bool
    requires { Readable packed s.now }
    ensures { result ≡ ltb (magnitude_of packed s.now) (10 ^ m) }
{
    let n = digit_count(packed, s.len());
    n <= m || leading_zeros(s, packed, n - m)
}
