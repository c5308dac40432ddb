//! The turns of a drill, each of which settles an open position that a generator draws.

ghost use Rattle.std.specs.Prelude.{◌≡◌, ◌<◌, ◌≤◌, ◌+◌, ◌^◌, length, IfOk, OnOk};
ghost use Rattle.lt_words.specs.Grammar.{IsDimension, most_turns};
ghost use Rattle.lt_drill.specs.States.{next_state};
ghost use Rattle.ltypes.specs.Drills.{open_positions, IsOpenNumber, IsTurn, IsDrilled};

use lt_core::Atlas;
use lt_crew::settle;
use lt_drill::Draws;
use lt_model::Memory;
use std::alloc::Global;

/// The number of open positions of the queue.
fn count_open(atlas: &Atlas) -> u64
    ensures { result ≡ open_positions atlas.now }
{
    let mut count = 0;
    for position in 0..atlas.queued() {
        if atlas.standing(position).is_open() {
            count += 1;
        }
    }
    count
}

/// The open position of the queue with this number, counted from 0 in the order of the queue.
fn open_position(atlas: &Atlas, number: u64) -> u64
    requires { number < open_positions atlas.now }
    ensures { IsOpenNumber atlas.now number result }
{
    let mut passed = 0;
    for position in 0..atlas.queued() {
        if atlas.standing(position).is_open() {
            if passed == number {
                return position;
            }
            passed += 1;
        }
    }
    unreachable!()
}

/// Settles one of the `count` open positions, which the generator draws. Memory where memory was refused.
fn take_turn(alloc: Global, atlas: &mut Atlas, draws: &mut Draws, count: u64) -> Result<(), Memory>
    requires some { 1 ≤ count }
    requires count { count ≡ open_positions atlas.old }
    requires few { length atlas.old.entries < 2 ^ 30 }
    ensures turn { OnOk result (IsTurn draws.old atlas.old atlas.new) }
    ensures draws { draws.new ≡ next_state draws.old }
{
    let number = draws.next(count);
    let position = open_position(atlas, number);
    settle(alloc, atlas, position)
}

/// The starting atlas of dimension `d` after so many turns, or fewer where no position is open any more. Memory where memory was refused.
pub fn drilled(alloc: Global, d: u8, draws: &mut Draws, turns: u64) -> Result<Atlas, Memory>
    requires dimension { IsDimension d }
    requires turns { turns ≤ most_turns d }
    ensures drilled { IfOk result (λ a. IsDrilled d draws.old turns a) }
    ensures few { IfOk result (λ a. length a.entries ≤ 1 + turns) }
{
    let Ok(mut atlas) = Atlas::start(alloc, d) else {
        return Err(Memory);
    };
    for _turn in 0..turns {
        atlas.keeps();
        let count = count_open(&atlas);
        if count == 0 {
            return Ok(atlas);
        }
        take_turn(alloc, &mut atlas, draws, count)?;
    }
    atlas.keeps();
    Ok(atlas)
}
