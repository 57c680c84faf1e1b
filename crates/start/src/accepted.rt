// From an accepted program to a run that has begun: the entry, the arguments, room for the start. None of this sees the frame table.
ghost use Rattle.std.specs.Prelude.{◌<◌};
ghost use Rattle.rules.specs.Established.{Accepted, LaidOut};
ghost use Rattle.start.specs.Begins.{Callable, Prepares};

use crate::first::{Begun, load};
use fetch::Index;
use program::Layout;
use rules::answers::{Place, Reason};

// The run of a program whose arguments are right: 17, 16 and 15 for loading.
fn begin_called(
    file: &[u8],
    index: Index,
    entry: usize,
    arguments: &[u8],
    budget: usize,
    cells: &mut [u16],
    stack: &mut [u16],
    frames: usize,
) -> Result<Begun, Reason>
    requires { Callable file.now index entry arguments.now × (budget < 4294967296) }
    ensures { Prepares file.now entry arguments.now budget cells.old stack.old frames
        cells.new stack.new result }
{
    let m = store::usable(cells.len(), stack.len(), frames);
    let arity = fetch::function_arity(file, &index, entry);
    let place = Place {
        function: entry,
        instruction: 1,
    };
    if m.frames == 0 {
        return Err(Reason::OutOfFrames(place));
    }
    if m.stack < arity {
        return Err(Reason::OutOfStack(place));
    }
    if !arguments::enough(file, arguments, m.cells) {
        return Err(Reason::OutOfCells(place));
    }
    let start = load(file, &index, arguments, cells, stack, entry, arity, budget);
    Ok(Begun {
        index,
        limits: m,
        start,
    })
}

// The run of an accepted program: 11 and 12.
pub fn begin_accepted(
    file: &[u8],
    layout: &Layout,
    entry: usize,
    arguments: &[u8],
    budget: usize,
    cells: &mut [u16],
    stack: &mut [u16],
    frames: usize,
) -> Result<Begun, Reason>
    requires { Accepted file.now × LaidOut file.now layout.now.header layout.now.heads × (budget < 4294967296) }
    ensures { Prepares file.now entry arguments.now budget cells.old stack.old frames
        cells.new stack.new result }
{
    if entry >= usize::from(layout.header.functions) {
        return Err(Reason::NoEntry { entry });
    }
    arguments::check_arguments(file, layout.heads[entry], arguments)?;
    let index = fetch::index_of(file, layout);
    begin_called(file, index, entry, arguments, budget, cells, stack, frames)
}
