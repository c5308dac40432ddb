//! The commands whose words stand in one order.

ghost use Rattle.std.specs.Prelude.{◌≡◌, ℕ, List, [], ◌∷◌, codes, IfOk, IfErr};
ghost use Rattle.std.specs.Fmt.{decimal};
ghost use Rattle.lt_words.specs.declared.words.Kind.{Kind};
ghost use Rattle.lt_words.specs.Grammar.{texts, IsDimension, InRange, Spells, FaultAt, place_of};
ghost use Rattle.lt_words.specs.Parts.{HasFront, IsAlone, kind_word};

use crate::limits::{MOST_ENTRY, turn_limit};
use crate::places::{dimension_at, end_at, is_at, number_at};
use crate::words::{Command, WordsError};

/// The dimension of a command that has nothing else behind its word.
pub fn read_alone(words: &[&str]) -> Result<u8, WordsError>
    ensures dimension { IfOk result (λ d. IsDimension d) }
    ensures words { IfOk result (λ d. (w : List ℕ) → HasFront (texts words.now) (w ∷ []) → texts words.now ≡ w ∷
        decimal d ∷ []) }
    ensures fault { IfErr result (λ e. (k : Kind) → IsAlone k → HasFront (texts words.now) (kind_word k ∷ []) →
        FaultAt (texts words.now) (place_of e)) }
{
    let d = dimension_at(words)?;
    end_at(words, 2)?;
    Ok(d)
}

/// The command `summary`, with its dimension and option to come.
pub fn read_summary(words: &[&str]) -> Result<Command, WordsError>
    requires { HasFront (texts words.now) (codes "summary" ∷ []) }
    ensures command { IfOk result (λ c. InRange c × Spells c (texts words.now)) }
    ensures fault { IfErr result (λ e. FaultAt (texts words.now) (place_of e)) }
{
    let d = dimension_at(words)?;
    let resume = is_at(words, 2, "--resume");
    end_at(words, if resume { 3 } else { 2 })?;
    Ok(Command::Summary { d, resume })
}

/// The command `drill`, with its dimension, seed and number of turns to come.
pub fn read_drill(words: &[&str]) -> Result<Command, WordsError>
    requires { HasFront (texts words.now) (codes "drill" ∷ []) }
    ensures command { IfOk result (λ c. InRange c × Spells c (texts words.now)) }
    ensures fault { IfErr result (λ e. FaultAt (texts words.now) (place_of e)) }
{
    let d = dimension_at(words)?;
    let seed = number_at(words, 2, 0, u64::MAX)?;
    let length = number_at(words, 3, 0, turn_limit(d))?;
    end_at(words, 4)?;
    Ok(Command::Drill { d, seed, length })
}

/// The command `relevant`, with its dimension and the number of an entry to come.
pub fn read_relevant(words: &[&str]) -> Result<Command, WordsError>
    requires { HasFront (texts words.now) (codes "relevant" ∷ []) }
    ensures command { IfOk result (λ c. InRange c × Spells c (texts words.now)) }
    ensures fault { IfErr result (λ e. FaultAt (texts words.now) (place_of e)) }
{
    let d = dimension_at(words)?;
    let entry = number_at(words, 2, 0, MOST_ENTRY)?;
    end_at(words, 3)?;
    Ok(Command::Relevant {
        d,
        entry: entry as u32,
    })
}
