//! The limits that depend on the dimension.

ghost use Rattle.std.specs.Prelude.{◌≡◌, ◌≤◌};
ghost use Rattle.lt_model.specs.Limits as limits;

/// The greatest span of an entry of an atlas of dimension `d`.
pub fn span_limit(d: u8) -> u32
    ensures value { result ≡ limits.span_limit d }
    ensures small { result ≤ limits.widest }
{
    if d <= 5 { 400 } else { 100 }
}

/// The greatest number of steps of a run in dimension `d`, which a run takes where none is named. It is greatest in
/// the lowest dimension.
pub fn step_limit(d: u8) -> u64
    ensures { result ≡ limits.step_limit d }
{
    if d <= 5 { 100_000 } else { 2_000 }
}
