//! Numbers in words.

ghost use Rattle.std.specs.Prelude.{◌≡◌, ◌≤◌, ◌<◌, ◌-◌, ◌^◌, IfSome, min};
ghost use Rattle.scald_lex.specs.Bytes.{value_of};
ghost use Rattle.program_call.specs.Numbers.{number_in, rounds_of};

use itoa::Buffer;

/// The most rounds that may be asked for.
const MOST_ROUNDS: u32 = 10_000_000;

/// How many rounds a word allows, 1 to 10,000,000, if it is `rounds=N`.
pub fn rounds_of(word: &[u8]) -> Option<u32>
    ensures is { result ≡ rounds_of word.now }
    ensures within { IfSome result (λ limit. limit ≤ 10000000) }
{
    match word.strip_prefix(b"rounds=") {
        Some(digits) => number_in(MOST_ROUNDS, digits),
        None => None,
    }
}

/// The number of 1 to the most whose decimal text this is.
#[tactic(auto, unfolding(crate::specs::Numbers::number_in))]
pub fn number_in(most: u32, digits: &[u8]) -> Option<u32>
    requires { most < 2 ^ 32 - 1 }
    ensures is { result ≡ number_in most digits.now }
    ensures within { IfSome result (λ number. (1 ≤ number) × (number ≤ most)) }
{
    let number = value(digits);
    let is_within = 1 <= number && number <= most;
    if is_within && Buffer::new().format(number).as_bytes() == digits {
        Some(number)
    } else {
        None
    }
}

/// The value of digits, or the greatest number of 32 bits if it is greater.
fn value(digits: &[u8]) -> u32
    ensures { result ≡ min (value_of digits.now) (2 ^ 32 - 1) }
{
    let mut value: u32 = 0;
    for digit in digits {
        value = value
            .saturating_mul(10)
            .saturating_add(u32::from(digit.saturating_sub(b'0')));
    }
    value
}
