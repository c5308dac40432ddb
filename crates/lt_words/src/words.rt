ghost use Rattle.std.specs.Prelude.{◌≡◌, [], ◌∷◌, IfOk, IfErr, IfSome, IfNone};
ghost use Rattle.lt_words.specs.Grammar.{texts, InRange, Spells, FaultAt, place_of};
ghost use Rattle.lt_words.specs.Parts.{HasFront, kind_word};
ghost use Rattle.lt_words.specs.Laws.{EveryFaultHasOnePlace, NoCommandHasAFault, WordsSpellOneCommand, DrillsKeepTheStepLimit};

use crate::fixed::{read_alone, read_drill, read_relevant, read_summary};
use crate::forms::{read_form, read_forms};
use crate::options::read_run;
use arrayvec::ArrayVec;
use lt_lattice::Form;
use thiserror::Error;

/// What the program is asked to do. Each dimension `d` is 2 to 6.
#[derive(Drop)]
pub enum Command {
    /// `principal D`: print the principal type of dimension `d`.
    Principal {
        d: u8,
    },
    /// `summary D`: print the counts of the starting atlas, or with `--resume` of the atlas that is read.
    Summary {
        d: u8,
        resume: bool,
    },
    /// `check D`: read an atlas with every check.
    Check {
        d: u8,
    },
    /// `run D --workers N --steps B --resume`: enumerate, from the starting atlas or with `--resume` from the atlas
    /// that is read. `workers` is 1 to 64, and 1 where none is named. `steps` is the number of positions of the
    /// queue that are settled, 0 to 100,000, or to 2,000 where `d` is 6, and the greatest where none is named.
    Run {
        d: u8,
        workers: u32,
        steps: u64,
        resume: bool,
    },
    /// `drill D SEED LENGTH`: settle `length` positions of the queue, at most 1000, or 950 where `d` is 6, that a
    /// generator draws from its `seed`, write the atlas, read it again and go on. The seed is any number below 2^64.
    Drill {
        d: u8,
        seed: u64,
        length: u64,
    },
    /// `locate D B` and the numbers of a form: walk to its triangulation, of at most `steps` crossings, 0 to 10,000. The numbers of each form
    /// are at most 2^40 in absolute value.
    Locate {
        steps: u32,
        q: Form,
    },
    /// `cover D B` and the numbers of a form: its squared covering radius.
    Cover {
        steps: u32,
        q: Form,
    },
    /// `relevant D K`: the relevant vectors of entry `entry`, 0 to 1,000,000, of the atlas that is read.
    Relevant {
        d: u8,
        entry: u32,
    },
    /// `shortest D B` and the numbers of a form: its shortest vectors.
    Shortest {
        steps: u32,
        q: Form,
    },
    /// `section D B M` and the numbers of M forms, one form after the other: the secondary cone of the first, cut by the forms. There are
    /// one form at least and as many at most as a form has numbers. Their numbers are at most 4096 in absolute value.
    Section {
        steps: u32,
        forms: ArrayVec<Form, 21>,
    },
    /// `merge D`: two atlases to one, which are read one after the other.
    Merge {
        d: u8,
    },
    /// `convert D`: an atlas that is read in version 1 of the text, written in version 2.
    Convert {
        d: u8,
    },
}

/// Why words are no command.
#[derive(Clone, Copy, Debug, PartialEq, Eq, Drop, Error)]
pub enum WordsError {
    /// No command begins with the words up to the one at `place`, counted from 0, or with `place` words only
    /// something is missing.
    #[error("the words are no command from place {place} on")]
    Fault { place: u32 },
}

/// The kind of a command, which its first word tells.
#[derive(Clone, Copy, Drop)]
enum Kind {
    Principal,
    Summary,
    Check,
    Run,
    Drill,
    Locate,
    Cover,
    Relevant,
    Shortest,
    Section,
    Merge,
    Convert,
}

/// The kind that a word tells.
fn kind_of(word: &str) -> Option<Kind>
    ensures found { IfSome result (λ kind. word.now ≡ kind_word kind) }
    ensures none { IfNone result ((kind : Kind) → word.now ≡ kind_word kind → ⊥) }
{
    match word {
        "principal" => Some(Kind::Principal),
        "summary" => Some(Kind::Summary),
        "check" => Some(Kind::Check),
        "run" => Some(Kind::Run),
        "drill" => Some(Kind::Drill),
        "locate" => Some(Kind::Locate),
        "cover" => Some(Kind::Cover),
        "relevant" => Some(Kind::Relevant),
        "shortest" => Some(Kind::Shortest),
        "section" => Some(Kind::Section),
        "merge" => Some(Kind::Merge),
        "convert" => Some(Kind::Convert),
        _ => None,
    }
}

/// The command of a kind, with what stands behind its word to come.
fn read_command(words: &[&str], kind: Kind) -> Result<Command, WordsError>
    requires { HasFront (texts words.now) (kind_word kind ∷ []) }
    ensures command { IfOk result (λ c. InRange c × Spells c (texts words.now)) }
    ensures fault { IfErr result (λ e. FaultAt (texts words.now) (place_of e)) }
{
    match kind {
        Kind::Principal => Ok(Command::Principal {
            d: read_alone(words)?,
        }),
        Kind::Summary => read_summary(words),
        Kind::Check => Ok(Command::Check {
            d: read_alone(words)?,
        }),
        Kind::Run => read_run(words),
        Kind::Drill => read_drill(words),
        Kind::Locate => {
            let (steps, q) = read_form(words)?;
            Ok(Command::Locate { steps, q })
        }
        Kind::Cover => {
            let (steps, q) = read_form(words)?;
            Ok(Command::Cover { steps, q })
        }
        Kind::Relevant => read_relevant(words),
        Kind::Shortest => {
            let (steps, q) = read_form(words)?;
            Ok(Command::Shortest { steps, q })
        }
        Kind::Section => {
            let (steps, forms) = read_forms(words)?;
            Ok(Command::Section { steps, forms })
        }
        Kind::Merge => Ok(Command::Merge {
            d: read_alone(words)?,
        }),
        Kind::Convert => Ok(Command::Convert {
            d: read_alone(words)?,
        }),
    }
}

/// The command that the words spell, which stand as behind the program's name, or the place of their first
/// fault. It takes no memory.
pub fn read_words(words: &[&str]) -> Result<Command, WordsError>
    ensures command { IfOk result (λ c. InRange c × Spells c (texts words.now)) }
    ensures fault { IfErr result (λ e. FaultAt (texts words.now) (place_of e)) }
{
    if words.is_empty() {
        return Err(WordsError::Fault { place: 0 });
    }
    match kind_of(words[0]) {
        None => Err(WordsError::Fault { place: 0 }),
        Some(kind) => read_command(words, kind),
    }
}

/// A law, with nothing to run: a list of words has a fault at one place at most, none where it is a command,
/// and spells one command at most; and the run that ends a drill stays within the limit on steps.
pub fn faults_are_exact()
    ensures one_place { EveryFaultHasOnePlace }
    ensures none { NoCommandHasAFault }
    ensures one_command { WordsSpellOneCommand }
    ensures drills { DrillsKeepTheStepLimit }
{}
