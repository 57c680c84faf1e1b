// How a run begins: the program and its arguments are checked, there is room for the start, and the arguments are loaded. None of this
// sees the frame table.
#![tactic(auto)]

ghost use Rattle.start.specs.Begins.{Prepares};

use rules::answers::Reason;

mod accepted; // accepted.rt: from an accepted program to a run that has begun
mod first; // first.rt: the arguments' cells and the first frame

pub use first::Begun;

// For the crates above: the program and the arguments are checked, and the arguments loaded.
pub fn begin(
    file: &[u8],
    entry: u32,
    arguments: &[u8],
    budget: u32,
    cells: &mut [u16],
    stack: &mut [u16],
    frames: usize,
) -> Result<Begun, Reason>
    ensures { Prepares file.now entry arguments.now budget cells.old stack.old frames
        cells.new stack.new result }
{
    let layout = verifier::examine(file)?;
    accepted::begin_accepted(
        file,
        &layout,
        entry as usize,
        arguments,
        budget as usize,
        cells,
        stack,
        frames,
    )
}
