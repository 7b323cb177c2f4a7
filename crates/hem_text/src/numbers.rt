//! Numbers of any length.

ghost use Rattle.std.specs.Prelude.{◌≡◌, ◌≤◌, ◌<◌, ◌^◌, MatchOption, nat_le};
ghost use Rattle.hem_text.specs.Numbers.{number_of};

/// A text of so many bytes is short.
const SHORT: usize = 8;

/// No short text gives a greater number, whatever its bytes are.
const MOST_OF_SHORT: u64 = 2_400_000_000;

/// The value of decimal digits, where it has at most 64 bits. Leading zeros don't count.
pub fn number(text: &[u8]) -> Option<u64>
    ensures { MatchOption result (2 ^ 64 ≤ number_of text.now) (λ n. n ≡ number_of text.now) }
{
    let mut n: u64 = 0;
    for b in text {
        let digit = u64::from(b.saturating_sub(b'0'));
        n = n.checked_mul(10)?.checked_add(digit)?;
    }
    Some(n)
}

/// Whether the value of decimal digits is at most the bound.
pub fn is_at_most(text: &[u8], bound: u64) -> bool
    ensures { result ≡ nat_le (number_of text.now) bound }
{
    if text.len() <= SHORT && bound >= MOST_OF_SHORT {
        return true;
    }
    match number(text) {
        Some(n) => n <= bound,
        None => false,
    }
}

/// The value of decimal digits that have at most 64 bits.
pub fn value_of(text: &[u8]) -> u64
    requires { number_of text.now < 2 ^ 64 }
    ensures { result ≡ number_of text.now }
{
    number(text).unwrap()
}
