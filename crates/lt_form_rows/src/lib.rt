//! Tests of the calls on a form: edges, the walk to its triangulation, its covering radius, its relevant and shortest vectors, and
//! linear sections.
#![tactic(auto)]

#[cfg(test)]
mod forms;
#[cfg(test)]
mod sections;
#[cfg(test)]
mod vectors;
