// Numbers between the formats: a sign and a magnitude, where the conversion ranges hold them; and format F, whose two's complement is
// decoded to and encoded from i32 here and nowhere else.
#![tactic(auto)]

ghost use Rattle.std.specs.Prelude.{◌≡◌, true, not, ◌⊎◌, ◌+◌, ◌-◌, ◌*◌, ◌^◌, ◌<◌, ◌≤◌, T, negsuc, length};
ghost use Rattle.std.specs.Int.Signed.{mag, non_neg};
ghost use Rattle.std.specs.Int.{w32};
ghost use Rattle.std.proofs.Common.{to_z, of_z};
ghost use Rattle.rules.specs.Outcome.{done, is_done};
ghost use Rattle.rules.specs.Lists.{bytes_of, spelled, digits};
ghost use Rattle.rules.specs.Values.{fixed, meaning, normal, twos_complement};
ghost use Rattle.buffer.specs.Splice.{splice};
ghost use Rattle.fixed.specs.Words.{signed_value};
ghost use Rattle.fixed.specs.Signs.{sign_of, with_sign, greatest};

// A number: whether it is below zero, and its magnitude. Zero is never below zero.
#[derive(Clone, Copy)]
pub struct Signed {
    pub negative: bool,
    pub magnitude: u32,
}

// −(k + 1): every i32 below zero is made here.
fn minus(k: u32) -> i32
    requires { k < 0x80000000 }
    ensures { result ≡ negsuc k }
{
    -(k as i32) - 1
}

// The k of x = −(k + 1). −(x + 1) fits an i32 for the lowest x too, where −x does not.
fn unminus(x: i32) -> u32
    requires { T (not (non_neg x)) }
    ensures { result ≡ mag x }
{
    (-(x + 1)) as u32
}

// The i32 whose bits are n.
fn from_bits(n: u32) -> i32
    ensures { result ≡ to_z w32 n }
{
    if n < 0x8000_0000 {
        n as i32
    } else {
        minus(0xffff_ffff - n)
    }
}

// The bits of x.
fn to_bits(x: i32) -> u32
    ensures { result ≡ of_z w32 x }
{
    if x < 0 {
        0xffff_ffff - unminus(x)
    } else {
        x as u32
    }
}

// The sign and the magnitude of x; the lowest x has the magnitude LOWEST_WORD.
fn split(x: i32) -> Signed
    ensures { result ≡ sign_of x }
{
    Signed {
        negative: x < 0,
        magnitude: x.unsigned_abs(),
    }
}

// The i32 of a sign and a magnitude.
fn join(negative: bool, magnitude: u32) -> i32
    requires { magnitude ≤ greatest negative }
    ensures { result ≡ with_sign negative magnitude }
{
    if negative && magnitude != 0 {
        minus(magnitude - 1)
    } else {
        magnitude as i32
    }
}

// The number that at most four bytes spell.
fn number_of(s: &[u8]) -> u32
    requires { length s.now ≤ 4 }
    ensures { (result ≡ spelled 256 s.now 0) × (result < 256 ^ length s.now) }
{
    let mut n = 0;
    for &b in s {
        n = n * 256 + u32::from(b);
    }
    n
}

// Writes the last n bytes of x to out, from the place at.
pub fn put_number(x: u32, n: usize, out: &mut [u8], at: usize)
    requires { at + n ≤ length out.old }
    ensures { out.new ≡ splice at (digits 256 n x) out.old }
{
    let mut rest = x;
    for j in (0..n).rev() {
        out[at + j] = (rest % 256) as u8;
        rest /= 256;
    }
}

// The i32 of a value of format F.
fn decode(s: &[u8]) -> i32
    requires { (length s.now ≡ 2) ⊎ (length s.now ≡ 4) }
    ensures { signed_value (sign_of result) ≡ twos_complement (length s.now) (spelled 256 s.now 0) }
{
    let n = number_of(s);
    if s.len() == 4 || n < 0x8000 {
        from_bits(n)
    } else {
        from_bits(n + 0xffff_0000)
    }
}

// What a value of format F means.
#[tactic(auto, unfolding(rules::specs::Values::meaning))]
pub fn fixed_word(s: &[u8]) -> Signed
    requires { (length s.now ≡ 2) ⊎ (length s.now ≡ 4) }
    ensures { done (signed_value result) ≡ meaning fixed s.now }
{
    split(decode(s))
}

// 2^(8n − 1): the least magnitude that fits n bytes only as a number below zero.
fn half(n: usize) -> u32
    requires { (n ≡ 2) ⊎ (n ≡ 4) }
    ensures { result ≡ 2 ^ (8 * n - 1) }
{
    if n == 4 { 0x8000_0000 } else { 0x8000 }
}

// Whether v fits n bytes of format F.
#[tactic(auto, using(crate::proofs::Fixed::fits_plus, crate::proofs::Fixed::fits_minus))]
pub fn fixed_fits(v: Signed, n: usize) -> bool
    requires { (n ≡ 2) ⊎ (n ≡ 4) }
    ensures { result ≡ is_done (normal fixed n (signed_value v)) }
{
    let end = half(n);
    if v.negative {
        v.magnitude <= end
    } else {
        v.magnitude < end
    }
}

// Writes v as n bytes of format F to out, from the place at.
pub fn write_fixed(v: Signed, n: usize, out: &mut [u8], at: usize)
    requires { ((n ≡ 2) ⊎ (n ≡ 4)) × (is_done (normal fixed n (signed_value v)) ≡ true) × (at + n ≤ length out.old) }
    ensures { out.new ≡ splice at (bytes_of (normal fixed n (signed_value v))) out.old }
{
    let x = join(v.negative, v.magnitude);
    put_number(to_bits(x), n, out, at);
}
