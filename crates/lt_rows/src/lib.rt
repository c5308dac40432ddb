//! Tests of the crates below the top call: worked rows and vectors of numbers, linear systems, points, matrices, classes
//! and triangulations. They stand in a crate of their own, since a crate with tests is proved twice.
#![tactic(auto)]

#[cfg(test)]
mod atlases;
#[cfg(test)]
mod claims;
#[cfg(test)]
mod colours;
#[cfg(test)]
mod cones;
#[cfg(test)]
mod drills;
#[cfg(test)]
mod flips;
#[cfg(test)]
mod geometry;
#[cfg(test)]
mod lattice;
#[cfg(test)]
mod matching;
#[cfg(test)]
mod numbers;
#[cfg(test)]
mod regulators;
#[cfg(test)]
mod systems;
#[cfg(test)]
mod tableau;
#[cfg(test)]
mod verdicts;
