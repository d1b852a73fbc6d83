//! Numbers that are spelled in decimal digits.
ghost use Rattle.std.specs.Prelude.{◌≡◌, ◌≤◌, true, false, length, MatchOption};
ghost use Rattle.std.specs.List.{list_all};
ghost use Rattle.std.specs.Char.{is_ascii_digit};
ghost use Rattle.std.specs.Str.Parse.{digits_value};
ghost use Rattle.hk_io.specs.Number.{number_of};

/// The most digits of a number.
const MAX_DIGITS: usize = 20;

/// What the digits write, where each byte is one.
fn digits_of(word: &[u8]) -> Option<u128>
    requires { length word.now ≤ MAX_DIGITS }
    ensures { MatchOption result (list_all is_ascii_digit word.now ≡ false) (λ value. (list_all is_ascii_digit word.now ≡ true) × (value ≡ digits_value 10 word.now)) }
{
    let mut value: u128 = 0;
    for byte in word {
        if !byte.is_ascii_digit() {
            return None;
        }
        value = value * 10 + u128::from(*byte - b'0');
    }
    Some(value)
}

/// The number that a word of 1 to 20 decimal digits spells, where it is below 2^64. Leading zeros are allowed, signs aren't.
#[tactic(auto, unfolding(crate::specs::Number::number_of))]
pub fn number(word: &[u8]) -> Option<u64>
    ensures { result ≡ number_of word.now }
{
    if word.is_empty() || word.len() > MAX_DIGITS {
        return None;
    }
    let value = digits_of(word)?;
    u64::try_from(value).ok()
}
