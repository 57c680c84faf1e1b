// The run: the top frame until it rests, then a call, a return or an end, and so on.
ghost use Rattle.std.specs.Prelude.{◌≡◌, List, ℕ, ◌+◌, ◌≤◌, length};
ghost use Rattle.rules.specs.Container.{payload};
ghost use Rattle.rules.specs.Established.{Verified};
ghost use Rattle.fetch.specs.Places.{offset_at, Inside};
ghost use Rattle.steps.specs.declared.state.Rest.TheVariants.{Calls};
ghost use Rattle.machine.specs.Turns.{Rested, Turned, Settles, Closes};
ghost use Rattle.machine.specs.Runs.{Begun, Ends};

use crate::frames::{enter, leave, waiting};
use fetch::{Index, fetch};
use steps::{Registers, Rest, Table, straight};
use store::{Frame, Limits, frame_at, put_frame};

// How a run ends: with its result on top of the stack, by the program's own stop, or since no step or no room is left.
#[derive(Clone, Copy)]
pub enum End {
    Result,
    Stops,
    Spent,
    OutOf(Table),
}

// No step is left: a return in the only frame is still the result.
fn settled(file: &[u8], r: Registers) -> End
    requires { Verified file.now × Inside r.at × (offset_at r.at + 4 ≤ length (payload file.now)) }
    ensures { Settles (payload file.now) r result }
{
    if r.depth != 0 {
        return End::Spent;
    }
    let f = fetch(file, r.at);
    if f.word % 256 == 5 {
        End::Result
    } else {
        End::Spent
    }
}

// How the run ends at a frame that rests and gives way to no other. It never sees the frame table nor the stack.
fn over(file: &[u8], r: Registers, why: Rest) -> End
    requires { (Verified file.now × Inside r.at × (offset_at r.at + 4 ≤ length (payload file.now)))
        × ((g : ℕ) → why ≡ Calls g → ⊥) }
    ensures { Closes (payload file.now) r why result }
{
    match why {
        Rest::Calls(_) => unreachable!(),
        Rest::Returns => End::Result,
        Rest::Stops => End::Stops,
        Rest::Spent => settled(file, r),
        Rest::OutOf(table) => End::OutOf(table),
    }
}

// A frame that rests at a call or a return gives way to another, or the run ends there.
fn turn(
    file: &[u8],
    index: &Index,
    stack: &mut [u16],
    frames: &mut [Frame],
    m: Limits,
    r: Registers,
    why: Rest,
) -> Result<Registers, End>
    requires { (cells : List ℕ) × Rested file.now index.now m cells stack.old frames.old r why }
    ensures { (cells : List ℕ)
        → Rested file.now index.now m cells stack.old frames.old r why
        → Turned file.now m cells stack.old frames.old r why stack.new frames.new result }
{
    match why {
        Rest::Calls(g) => {
            put_frame(frames, r.depth, waiting(r));
            match enter(file, index, stack, m, r, g) {
                Ok(callee) => Ok(callee),
                Err(table) => Err(End::OutOf(table)),
            }
        }
        Rest::Returns if r.depth != 0 => {
            Ok(leave(file, index, stack, r, frame_at(frames, r.depth - 1)))
        }
        _ => Err(over(file, r, why)),
    }
}

// For the crates above: the run from a state on, with its last frame and how it ends.
pub fn drive(
    file: &[u8],
    index: &Index,
    cells: &mut [u16],
    stack: &mut [u16],
    frames: &mut [Frame],
    m: Limits,
    start: Registers,
) -> (Registers, End)
    requires { Begun file.now index.now m cells.old stack.old frames.old start }
    ensures { Ends file.now m cells.old stack.old frames.old start cells.new
        stack.new frames.new result.0 result.1 }
{
    let mut r = start;
    // How often frames change is the run's own: there is no range to go over.
    loop {
        let (t, why) = straight(file, cells, stack, m, r);
        match turn(file, index, stack, frames, m, t, why) {
            Ok(next) => r = next,
            Err(end) => return (t, end),
        }
    }
}
