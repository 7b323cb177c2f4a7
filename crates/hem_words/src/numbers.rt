//! Numbers on the command line.

ghost use Rattle.std.specs.Prelude.{◌≡◌, ℕ, ◌≤◌, ◌&&◌, nat_le, not, length, MatchOption, option_map};
ghost use Rattle.std.specs.Char.{is_ascii_digit};
ghost use Rattle.std.specs.List.{list_all};
ghost use Rattle.hem_words.specs.Job.{IsNumber, IsCount, IsMostOf, IsSeedOf};

use hem_text::number;

/// The most digits of a number.
const MOST_DIGITS: usize = 20;

/// The greatest count.
const MOST_COUNT: u32 = 100_000;

/// Whether all bytes are ASCII digits.
fn are_digits(text: &[u8]) -> bool
    ensures { result ≡ list_all is_ascii_digit text.now }
{
    text.iter().all(|byte| byte.is_ascii_digit())
}

/// The number of at most `most` that one to twenty digits write.
fn number_within(text: &str, most: u64) -> Option<u64>
    ensures { MatchOption result ((n : ℕ) → ¬ IsNumber most text.now n) (IsNumber most text.now) }
{
    let digits = text.as_bytes();
    if digits.is_empty() || digits.len() > MOST_DIGITS || !are_digits(digits) {
        return None;
    }
    match number(digits) {
        Some(n) if n <= most => Some(n),
        _ => None,
    }
}

/// The number of a count, from 1 to 100,000.
pub(crate) fn count_of(text: &str) -> Option<u32>
    ensures { MatchOption result ((n : ℕ) → ¬ IsCount text.now n) (IsCount text.now) }
{
    match number_within(text, MOST_COUNT as u64) {
        Some(0) | None => None,
        Some(n) => Some(n as u32),
    }
}

/// How many firings a play makes at most, 100,000 where no count is there.
pub(crate) fn most_of(text: Option<&str>) -> Option<u32>
    ensures { MatchOption result ((n : ℕ) → ¬ IsMostOf (option_map (λ s. s.now) text.entry) n) (IsMostOf (option_map (λ s. s.now) text.entry)) }
{
    match text {
        Some(text) => count_of(text),
        None => Some(MOST_COUNT),
    }
}

/// The seed, 1 where none is there.
pub(crate) fn seed_of(text: Option<&str>) -> Option<u64>
    ensures { MatchOption result ((n : ℕ) → ¬ IsSeedOf (option_map (λ s. s.now) text.entry) n) (IsSeedOf (option_map (λ s. s.now) text.entry)) }
{
    match text {
        Some(text) => number_within(text, u64::MAX),
        None => Some(1),
    }
}
