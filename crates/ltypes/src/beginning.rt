//! The atlas that a command begins with.

ghost use Rattle.std.specs.Prelude.{◌≡◌, ◌≤◌, [], length, true, false, IfOk, IfErr};
ghost use Rattle.lt_words.specs.Grammar.{IsDimension};
ghost use Rattle.ltypes.specs.Beginnings.{IsBeginning, HasNoBeginning};
ghost use Rattle.ltypes.specs.Changes.{change};

use crate::status::Cause;
use lt_core::Atlas;
use lt_io::Source;
use lt_read::{ReadError, read_atlas};
use std::alloc::Global;

/// The atlas that the source spells, with all checks.
pub fn resumed<S: Source>(alloc: Global, d: u8, source: &mut S) -> Result<Atlas, Cause>
    requires { IsDimension d }
    ensures begins { IfOk result (IsBeginning d true
        (change (S.left source.old) (S.left source.new) (S.faults source.old) (S.faults source.new))) }
    ensures unrun { IfOk result (λ a. a.log ≡ []) }
    ensures few { IfOk result (λ a. length a.entries ≤ 100001) }
    ensures why { IfErr result (HasNoBeginning d true
        (change (S.left source.old) (S.left source.new) (S.faults source.old) (S.faults source.new))) }
{
    match read_atlas(alloc, source, d) {
        Ok(atlas) => Ok(atlas),
        Err(ReadError::Failed) => Err(Cause::ReadFault),
        Err(ReadError::Refused(refusal)) => Err(Cause::Refused(refusal)),
        Err(ReadError::Memory) => Err(Cause::Memory),
    }
}

/// The starting atlas, or with `resume` the one that the source spells.
pub fn beginning<S: Source>(
    alloc: Global,
    d: u8,
    resume: bool,
    source: &mut S,
) -> Result<Atlas, Cause>
    requires { IsDimension d }
    ensures begins { IfOk result (IsBeginning d resume
        (change (S.left source.old) (S.left source.new) (S.faults source.old) (S.faults source.new))) }
    ensures unrun { IfOk result (λ a. a.log ≡ []) }
    ensures few { IfOk result (λ a. length a.entries ≤ 100001) }
    ensures why { IfErr result (HasNoBeginning d resume
        (change (S.left source.old) (S.left source.new) (S.faults source.old) (S.faults source.new))) }
    ensures unread { resume ≡ false → S.left source.new ≡ S.left source.old }
    ensures no_fault { resume ≡ false → S.faults source.new ≡ S.faults source.old }
{
    if resume {
        return resumed(alloc, d, source);
    }
    match Atlas::start(alloc, d) {
        Ok(atlas) => Ok(atlas),
        Err(_) => Err(Cause::Memory),
    }
}
