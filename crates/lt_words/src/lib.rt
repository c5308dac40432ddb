//! The words of the command line, read without memory.
#![tactic(auto)]

mod fixed;
mod forms;
mod limits;
mod numbers;
mod options;
mod places;
mod words;

pub use words::{Command, WordsError, faults_are_exact, read_words};
