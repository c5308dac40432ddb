//! Words that spell numbers.

ghost use Rattle.std.specs.Prelude.{◌≡◌, ◌≢◌, ℕ, length, get_or, IsTrue, ◌↔◌, IfSome, IfNone};
ghost use Rattle.std.specs.Fmt.{decimal};
ghost use Rattle.lt_scan.specs.Reading.{IsWithin};
ghost use Rattle.lt_words.specs.Grammar.{IsDimension};

use crate::limits::{HIGHEST, LOWEST};

/// Whether a word begins neither with a plus nor with a zero before another byte.
fn is_bare(word: &str) -> bool
    ensures { IsTrue result ↔ ((get_or word.now 0 0 ≢ 43) × (get_or word.now 0 0 ≡ 48 → length word.now ≡ 1)) }
{
    match word.as_bytes() {
        [b'+', ..] => false,
        [b'0', rest @ ..] => rest.is_empty(),
        _ => true,
    }
}

/// The number that a word spells, where it is `low` to `high`. `parse` takes a plus and zeros in front too.
pub fn number_of(word: &str, low: u64, high: u64) -> Option<u64>
    ensures found { IfSome result (λ n. IsWithin low high n × (word.now ≡ decimal n)) }
    ensures none { IfNone result ((n : ℕ) → IsWithin low high n → word.now ≡ decimal n → ⊥) }
{
    if !is_bare(word) {
        return None;
    }
    match word.parse::<u64>() {
        Ok(n) if low <= n && n <= high => Some(n),
        _ => None,
    }
}

/// The dimension that a word spells.
pub fn dimension_of(word: &str) -> Option<u8>
    ensures found { IfSome result (λ d. IsDimension d × (word.now ≡ decimal d)) }
    ensures none { IfNone result ((d : ℕ) → IsDimension d → word.now ≡ decimal d → ⊥) }
{
    let d = number_of(word, LOWEST as u64, HIGHEST as u64)?;
    Some(d as u8)
}
