//! What stands behind the word `run`: the dimension and options, in any order.

ghost use Rattle.std.specs.Prelude.{◌≡◌, ◌<◌, [], ◌∷◌, ℕ, codes, false, None, IsTrue, ◌↔◌, IfOk, IfErr, IfSome, IfNone};
ghost use Rattle.std.specs.Fmt.{decimal};
ghost use Rattle.lt_words.specs.Grammar.{texts, IsInSetting, InRange, Spells, FaultAt, place_of, setting_word};
ghost use Rattle.lt_words.specs.Parts.{HasFront, IsPart, part_word};

use crate::limits::LOWEST;
use crate::numbers::{dimension_of, number_of};
use crate::words::{Command, WordsError};
use lt_model::step_limit;

/// The greatest number of workers.
const MOST_WORKERS: u64 = 64;

/// An option of a run that takes a number.
#[derive(Clone, Copy, Drop)]
pub enum Setting {
    Workers,
    Steps,
}

/// What one word behind `run` can be, where it isn't a number that is due.
#[derive(Clone, Copy, Drop)]
pub enum Part {
    Dimension(u8),
    Resume,
    /// `--`, behind which no option stands.
    Ending,
    /// An option whose number is the next word.
    Named(Setting),
    /// An option with its number behind `=`.
    Joined(Setting, u64),
}

/// What the words behind `run` said so far.
#[derive(Clone, Copy, Drop)]
pub struct Options {
    d: Option<u8>,
    workers: Option<u64>,
    steps: Option<u64>,
    resume: bool,
    /// Whether `--` stood.
    ended: bool,
    /// The option whose number is the next word.
    due: Option<Setting>,
}

/// The option that a word names.
fn setting_of(word: &str) -> Option<Setting>
    ensures found { IfSome result (λ s. word.now ≡ setting_word s) }
    ensures none { IfNone result ((s : Setting) → word.now ≡ setting_word s → ⊥) }
{
    match word {
        "--workers" => Some(Setting::Workers),
        "--steps" => Some(Setting::Steps),
        _ => None,
    }
}

/// The number that a word spells for an option in some dimension.
fn value_of(setting: Setting, word: &str) -> Option<u64>
    ensures found { IfSome result (λ n. IsInSetting setting n × (word.now ≡ decimal n)) }
    ensures none { IfNone result ((n : ℕ) → IsInSetting setting n → word.now ≡ decimal n → ⊥) }
{
    match setting {
        Setting::Workers => number_of(word, 1, MOST_WORKERS),
        Setting::Steps => number_of(word, 0, step_limit(LOWEST)),
    }
}

/// The part that a word is.
fn part_of(word: &str) -> Option<Part>
    ensures found { IfSome result (λ p. IsPart p × (word.now ≡ part_word p)) }
    ensures none { IfNone result ((p : Part) → IsPart p → word.now ≡ part_word p → ⊥) }
{
    if let Some((name, number)) = word.split_once('=') {
        let setting = setting_of(name)?;
        let n = value_of(setting, number)?;
        return Some(Part::Joined(setting, n));
    }
    if let Some(setting) = setting_of(word) {
        return Some(Part::Named(setting));
    }
    match word {
        "--resume" => Some(Part::Resume),
        "--" => Some(Part::Ending),
        _ => dimension_of(word).map(Part::Dimension),
    }
}

impl Options {
    ghost use Rattle.lt_words.specs.Rests.{Allows, IsSound, IsInLimit, LeavesSteps, IsRest, GoesTo, StopsAt, HasRead, TakesNumber, named, words_read};

    /// Nothing was said.
    fn new() -> Self
        ensures sound { IsSound result }
        ensures read { HasRead (codes "run" ∷ []) result }
        ensures words { words_read result ≡ 0 }
    {
        Options {
            d: None,
            workers: None,
            steps: None,
            resume: false,
            ended: false,
            due: None,
        }
    }

    /// The number that was named for a setting.
    fn number(self, setting: Setting) -> Option<u64>
        ensures { result ≡ named self setting }
    {
        match setting {
            Setting::Workers => self.workers,
            Setting::Steps => self.steps,
        }
    }

    /// Whether the number of a setting is within the limit of the dimension, where that was named.
    fn is_in_limit(self, setting: Setting, n: u64) -> bool
        ensures { IsTrue result ↔ IsInLimit self setting n }
    {
        match (setting, self.d) {
            (Setting::Steps, Some(d)) => n <= step_limit(d),
            _ => true,
        }
    }

    /// Whether the steps that were named are within the limit of this dimension.
    fn leaves_steps(self, d: u8) -> bool
        ensures { IsTrue result ↔ LeavesSteps self d }
    {
        match self.steps {
            None => true,
            Some(n) => n <= step_limit(d),
        }
    }

    /// With the number of a setting.
    fn with_number(self, setting: Setting, n: u64) -> Self
        requires sound { IsSound self }
        requires new { named self setting ≡ None }
        requires open { self.ended ≡ false }
        requires range { IsInSetting setting n }
        requires limit { IsInLimit self setting n }
        ensures sound { IsSound result }
        ensures read { TakesNumber self setting n result }
        ensures words { words_read self < words_read result }
        ensures due { result.due ≡ None }
    {
        match setting {
            Setting::Workers => Options {
                workers: Some(n),
                due: None,
                ..self
            },
            Setting::Steps => Options {
                steps: Some(n),
                due: None,
                ..self
            },
        }
    }

    /// Whether a part may come.
    fn allows(self, part: Part) -> bool
        ensures { IsTrue result ↔ Allows self part }
    {
        match part {
            Part::Dimension(d) => self.d.is_none() && self.leaves_steps(d),
            Part::Resume => !self.ended && !self.resume,
            Part::Ending => !self.ended,
            Part::Named(setting) => !self.ended && self.number(setting).is_none(),
            Part::Joined(setting, n) => {
                !self.ended && self.number(setting).is_none() && self.is_in_limit(setting, n)
            }
        }
    }

    /// With a part, or none where it may not come.
    fn with_part(self, part: Part) -> Option<Self>
        requires sound { IsSound self }
        requires no_number { self.due ≡ None }
        requires part { IsPart part }
        ensures sound { IfSome result IsSound }
        ensures goes { IfSome result (GoesTo self (part_word part)) }
        ensures stops { IfNone result (StopsAt self (part_word part)) }
        ensures words { IfSome result (λ next. words_read self < words_read next) }
    {
        if !self.allows(part) {
            return None;
        }
        let next = match part {
            Part::Dimension(d) => Options { d: Some(d), ..self },
            Part::Resume => Options {
                resume: true,
                ..self
            },
            Part::Ending => Options {
                ended: true,
                ..self
            },
            Part::Named(setting) => Options {
                due: Some(setting),
                ..self
            },
            Part::Joined(setting, n) => self.with_number(setting, n),
        };
        Some(next)
    }

    /// With one word more, or none where no command goes on so.
    fn with_word(self, word: &str) -> Option<Self>
        requires { IsSound self }
        ensures sound { IfSome result IsSound }
        ensures goes { IfSome result (GoesTo self word.now) }
        ensures stops { IfNone result (StopsAt self word.now) }
        ensures words { IfSome result (λ next. words_read self < words_read next) }
    {
        match self.due {
            None => self.with_part(part_of(word)?),
            Some(setting) => {
                let n = value_of(setting, word)?;
                if !self.is_in_limit(setting, n) {
                    return None;
                }
                Some(self.with_number(setting, n))
            }
        }
    }

    /// The run that was named, where nothing is missing.
    fn command(self) -> Option<Command>
        requires { IsSound self }
        ensures range { IfSome result InRange }
        ensures whole { IfSome result (λ c. IsRest self c []) }
        ensures missing { IfNone result ((c : Command) → IsRest self c [] → ⊥) }
    {
        if self.due.is_some() {
            return None;
        }
        let d = self.d?;
        Some(Command::Run {
            d,
            workers: self.workers.unwrap_or(1) as u32,
            steps: self.steps.unwrap_or(step_limit(d)),
            resume: self.resume,
        })
    }
}

/// The command `run`, with its dimension and options to come.
pub fn read_run(words: &[&str]) -> Result<Command, WordsError>
    requires { HasFront (texts words.now) (codes "run" ∷ []) }
    ensures command { IfOk result (λ c. InRange c × Spells c (texts words.now)) }
    ensures fault { IfErr result (λ e. FaultAt (texts words.now) (place_of e)) }
{
    let mut options = Options::new();
    let mut place = 1;
    for word in &words[1..] {
        match options.with_word(word) {
            None => return Err(WordsError::Fault { place }),
            Some(next) => options = next,
        }
        place += 1;
    }
    options.command().ok_or(WordsError::Fault { place })
}
