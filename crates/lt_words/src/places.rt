//! The words at their places.

ghost use Rattle.std.specs.Prelude.{◌≡◌, ◌<◌, ◌≤◌, ◌^◌, ℕ, ℤ, length, nat_abs, IsTrue, ◌↔◌, IfOk, IfErr, OnOk};
ghost use Rattle.std.specs.Fmt.{decimal, signed_decimal};
ghost use Rattle.lt_scan.specs.Reading.{IsWithin};
ghost use Rattle.lt_words.specs.Grammar.{texts, IsDimension};
ghost use Rattle.lt_words.specs.Parts.{HasWord};

use crate::limits::{HIGHEST, LOWEST};
use crate::numbers::number_of;
use crate::words::WordsError;
use lt_scan::number_below;

/// The number, `low` to `high`, that the word at a place spells.
pub fn number_at(words: &[&str], place: u32, low: u64, high: u64) -> Result<u64, WordsError>
    ensures found { IfOk result (λ n. IsWithin low high n × HasWord (texts words.now) place (decimal n)) }
    ensures place { IfErr result (λ e. e ≡ WordsError.Fault place) }
    ensures none { IfErr result (λ _. (n : ℕ) → IsWithin low high n → HasWord (texts words.now) place (decimal n) → ⊥) }
{
    match words.get(place as usize) {
        None => Err(WordsError::Fault { place }),
        Some(word) => match number_of(word, low, high) {
            None => Err(WordsError::Fault { place }),
            Some(n) => Ok(n),
        },
    }
}

/// The dimension that the second word spells.
pub fn dimension_at(words: &[&str]) -> Result<u8, WordsError>
    ensures found { IfOk result (λ d. IsDimension d × HasWord (texts words.now) 1 (decimal d)) }
    ensures place { IfErr result (λ e. e ≡ WordsError.Fault 1) }
    ensures none { IfErr result (λ _. (d : ℕ) → IsDimension d → HasWord (texts words.now) 1 (decimal d) → ⊥) }
{
    let d = number_at(words, 1, LOWEST as u64, HIGHEST as u64)?;
    Ok(d as u8)
}

/// Sees that no word stands at a place.
pub fn end_at(words: &[&str], place: u32) -> Result<(), WordsError>
    ensures end { OnOk result (length words.now ≤ place) }
    ensures place { IfErr result (λ e. e ≡ WordsError.Fault place) }
    ensures more { IfErr result (λ _. place < length words.now) }
{
    if words.len() > place as usize {
        return Err(WordsError::Fault { place });
    }
    Ok(())
}

/// Whether this word stands at a place.
pub fn is_at(words: &[&str], place: usize, word: &str) -> bool
    ensures { IsTrue result ↔ HasWord (texts words.now) place word.now }
{
    place < words.len() && words[place] == word
}

/// The number, at most `most` in absolute value, that the word at a place spells.
pub fn integer_at(words: &[&str], place: u32, most: u64) -> Result<i128, WordsError>
    requires { most ≤ 2 ^ 40 }
    ensures found { IfOk result (λ z. (nat_abs z ≤ most) × HasWord (texts words.now) place (signed_decimal z)) }
    ensures place { IfErr result (λ e. e ≡ WordsError.Fault place) }
    ensures none { IfErr result (λ _. (z : ℤ) → nat_abs z ≤ most → HasWord (texts words.now) place (signed_decimal z)
        → ⊥) }
{
    match words.get(place as usize) {
        None => Err(WordsError::Fault { place }),
        Some(word) => match number_below(word.as_bytes(), u128::from(most) + 1) {
            None => Err(WordsError::Fault { place }),
            Some(z) => Ok(z),
        },
    }
}
