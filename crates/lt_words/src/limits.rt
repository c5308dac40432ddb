//! The ranges of the numbers of commands.

ghost use Rattle.std.specs.Prelude.{◌≡◌};
ghost use Rattle.lt_words.specs.Grammar.{most_turns};

/// The lowest dimension.
pub const LOWEST: u8 = 2;

/// The highest dimension.
pub const HIGHEST: u8 = 6;

/// The greatest number of an entry.
pub const MOST_ENTRY: u64 = 1_000_000;

/// The greatest number of crossings of a walk.
pub const MOST_CROSSINGS: u64 = 10_000;

/// The greatest absolute value of a number of the forms of a section.
pub const MOST_IN_SECTION: u64 = 4_096;

/// The greatest absolute value of a number of a form.
pub const MOST_OF_FORM: u64 = 1 << 40;

/// The greatest number of turns of a drill in dimension `d`.
pub fn turn_limit(d: u8) -> u64
    ensures { result ≡ most_turns d }
{
    if d <= 5 { 1_000 } else { 950 }
}
