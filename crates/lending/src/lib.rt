// A run on a frame table of its own, for callers that hold no record.
#![tactic(auto)]

ghost use Rattle.std.specs.Prelude.{◌≤◌, min};
ghost use Rattle.lending.specs.Here.{RunsHere};

use rules::answers::Answer;
use store::Frame;

// For the crates above: a run on n blank records of its own, from a table of N. It is thin: a table, and one call. The table is filled for
// every run, so the one of a short run is small.
pub fn run_on<const N: usize>(
    file: &[u8],
    entry: u32,
    arguments: &[u8],
    budget: u32,
    cells: &mut [u16],
    stack: &mut [u16],
    n: usize,
    out: &mut [u8],
) -> Answer
    requires { (n ≤ N) × (N ≤ 65535) }
    ensures { RunsHere file.now entry arguments.now budget cells.old stack.old n
        out.old cells.new stack.new out.new result }
{
    let mut table = [Frame::default(); N];
    interpreter::run(
        file,
        entry,
        arguments,
        budget,
        cells,
        stack,
        &mut table[..n],
        out,
    )
}

// The same run with a frame table of its own, of as many records as are usable, in the shortest table that has them. No parameter
// holds a record.
pub fn run_here(
    file: &[u8],
    entry: u32,
    arguments: &[u8],
    budget: u32,
    cells: &mut [u16],
    stack: &mut [u16],
    frames: usize,
    out: &mut [u8],
) -> Answer
    ensures { RunsHere file.now entry arguments.now budget cells.old stack.old
        (min 65535 frames) out.old cells.new stack.new out.new result }
{
    let m = store::usable(cells.len(), stack.len(), frames);
    if m.frames <= 256 {
        return run_on::<256>(file, entry, arguments, budget, cells, stack, m.frames, out);
    }
    if m.frames <= 4096 {
        return run_on::<4096>(file, entry, arguments, budget, cells, stack, m.frames, out);
    }
    run_on::<65535>(file, entry, arguments, budget, cells, stack, m.frames, out)
}
