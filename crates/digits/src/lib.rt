// A decimal number that is read digit by digit.
#![tactic(auto)]

ghost use Rattle.std.specs.Prelude.{◌≡◌};
ghost use Rattle.digits.specs.Digits.{is_digit};
ghost use Rattle.digits.specs.Digits.{longer as with_digit};

// By name, and no `checked_add`: the edit `limit_one_lower` has to lower it and nothing else.
const LARGEST: u64 = 4294967295;

#[tactic(auto, unfolding(crate::specs::Digits::is_digit))]
fn is_digit(b: u8) -> bool
    ensures { result ≡ is_digit b }
{
    b.is_ascii_digit()
}

// The number with one digit more; none if b is no digit, or the number is above 4294967295.
pub fn longer(n: u32, b: u8) -> Option<u32>
    ensures { result ≡ with_digit n b }
{
    if !is_digit(b) {
        return None;
    }
    let value = u64::from(n) * 10 + u64::from(b - b'0');
    if value > LARGEST {
        return None;
    }
    Some(value as u32)
}
