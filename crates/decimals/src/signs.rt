// The signs of P and U: which half bytes are signs, which of them are minus, and which is written.
ghost use Rattle.std.specs.Prelude.{◌≡◌, ◌<◌};
ghost use Rattle.rules.specs.Values.{accepted_minus, sign_written};
ghost use Rattle.decimals.specs.Tests.{is_sign};

// Whether a half byte is an accepted sign: all are but the digits, "8 for a sign half is given for 0 to 9 only".
#[tactic(auto, using(crate::proofs::SignHalves::sign_or_digit))]
pub fn is_sign(h: u8) -> bool
    requires { h < 16 }
    ensures { result ≡ is_sign h }
{
    9 < h
}

// "B and D as minus"; the other signs are plus.
#[tactic(auto, unfolding(rules::specs::Values::accepted_minus))]
pub fn is_minus(h: u8) -> bool
    ensures { result ≡ accepted_minus h }
{
    matches!(h, 0xB | 0xD)
}

// The sign in normal form.
#[tactic(auto, unfolding(rules::specs::Values::sign_written))]
pub fn written_sign(negative: bool) -> u8
    ensures { result ≡ sign_written negative }
{
    if negative { 0xD } else { 0xF }
}
