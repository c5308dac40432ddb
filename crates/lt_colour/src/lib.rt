//! Signatures of classes: numbers that no change of basis alters.
#![tactic(auto)]

mod fingerprints;
mod pairs;
mod signatures;

pub use fingerprints::{fingerprint, fingerprints_are_invariant};
pub use pairs::PairSignature;
pub use signatures::{pair_signatures, short_class_signature, signature, signatures_are_invariant};
