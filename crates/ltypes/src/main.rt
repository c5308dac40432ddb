//! Delaunay triangulations of the integer points, one type after another.
#![tactic(auto)]

mod beginning;
mod command;
mod convert;
mod drill;
mod forms;
mod merges;
mod printed;
mod reading;
mod refused;
mod run;
mod sections;
mod status;
mod summary;
mod totals;
mod turns;
mod vectors;

pub use command::{ltypes, outputs_are_exact, principal_command};
pub use drill::drill_command;
pub use forms::{cover_command, locate_command, shortest_command};
use lt_crew::OpenGate;
use lt_io::{LineSink, StdSink, StdSource};
pub use merges::merge_command;
pub use reading::{check_command, summary_command};
pub use run::{narrow_runs_finish, run_alone_command, run_command, runs_are_resumed};
pub use sections::section_command;
pub use status::{Cause, Status};
use std::env;
use std::io::ErrorKind;
use std::process::ExitCode;
pub use vectors::relevant_command;

/// The status where memory for the list of words is refused.
const MEMORY: u8 = 4;

/// The status where the system doesn't give the words as text.
const NO_WORDS: u8 = 15;

fn main(rt: HostRuntime) -> ExitCode {
    let mut args = match env::args(&rt) {
        Ok(args) => args,
        Err(e) if e.kind() == ErrorKind::OutOfMemory => return ExitCode::from(MEMORY),
        Err(_) => return ExitCode::from(NO_WORDS),
    };
    // The program's name.
    let _ = args.next();
    let mut texts: Vec<String> = Vec::new(rt.alloc());
    for arg in args {
        if texts.push(arg).is_err() {
            return ExitCode::from(MEMORY);
        }
    }
    let mut words: Vec<&str> = Vec::new(rt.alloc());
    for text in &texts {
        if words.push(text.as_str()).is_err() {
            return ExitCode::from(MEMORY);
        }
    }
    let mut source = StdSource::new(rt.stdin());
    // A line of output is one or two calls of the system, not one for each number.
    let mut out = LineSink::new(StdSink::new(rt.stdout()));
    let mut err = StdSink::new(rt.stderr());
    let status = ltypes(
        &rt,
        rt.alloc(),
        &words,
        &mut source,
        &mut out,
        &mut err,
        &OpenGate,
    );
    ExitCode::from(status.code)
}

#[cfg(test)]
mod crew_tests;
#[cfg(test)]
mod form_tests;
#[cfg(test)]
mod read_tests;
#[cfg(test)]
mod tests;
