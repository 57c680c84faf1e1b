// The command run: what it asks for, and the tables that it lends.
ghost use Rattle.std.specs.Prelude.{◌≤◌};

use protocol::words::Words;
use protocol::{answers, lent};

// A call, with the lengths of the lent tables and output, and the number of frames.
#[derive(Clone, Copy)]
struct Call<'a> {
    file: &'a [u8],
    entry: u32,
    arguments: &'a [u8],
    budget: u32,
    cells: usize,
    stack: usize,
    frames: usize,
    out: usize,
}

// A run uses 65,471 cells and 65,535 entries of another table at most, so longer tables than these are lent in part.
fn read_call<'a>(mut words: Words<'a>) -> Option<Call<'a>> {
    let call = Call {
        file: words.bytes()?,
        entry: words.number()?,
        arguments: words.bytes()?,
        budget: words.number()?,
        cells: (words.number()? as usize).min(700000),
        stack: (words.number()? as usize).min(80000),
        frames: words.number()? as usize,
        out: words.number()? as usize,
    };
    words.end()?;
    Some(call)
}

// A run in the fronts of tables of these lengths. They stand on the native stack, most of which the writing of a deep result takes, so
// each length has its own frame. It has no way out before the run: in front of a large frame LLVM moves such a way before the
// function's prologue, whose stack probe then overwrites a register that is in use.
#[inline(never)]
fn run_in<const CELLS: usize, const STACK: usize, const OUT: usize>(rt: &impl Print, call: Call<'_>)
    requires short { (CELLS ≤ 700000) × (STACK ≤ 80000) × (OUT ≤ 70000) }
    requires long { (call.cells ≤ CELLS) × (call.stack ≤ STACK) × (call.out ≤ OUT) }
{
    let mut cells = [lent::NUMBER; CELLS];
    let mut stack = [lent::NUMBER; STACK];
    let mut out = [lent::BYTE; OUT];
    let cells = &mut cells[..call.cells];
    let stack = &mut stack[..call.stack];
    let out = &mut out[..call.out];
    let answer = lending::run_here(
        call.file,
        call.entry,
        call.arguments,
        call.budget,
        cells,
        stack,
        call.frames,
        out,
    );
    let left = lent::found(cells, stack);
    answers::ran(rt, answer, left, call.arguments.len(), call.frames, out);
}

// A run in tables of these lengths, if they are long enough.
fn run_within<const CELLS: usize, const STACK: usize, const OUT: usize>(
    rt: &impl Print,
    call: Call<'_>,
) -> bool
    requires { (CELLS ≤ 700000) × (STACK ≤ 80000) × (OUT ≤ 70000) }
{
    if call.cells <= CELLS && call.stack <= STACK && call.out <= OUT {
        run_in::<CELLS, STACK, OUT>(rt, call);
        return true;
    }
    false
}

// The shortest tables that are long enough: for most calls; more cells than are used with a short stack, which leaves room for a result
// of 65,471 levels; and the longest.
pub fn run(rt: &impl Print, words: Words<'_>) -> Option<()> {
    let call = read_call(words)?;
    let ran = run_within::<4096, 1024, 4096>(rt, call)
        || run_within::<327680, 8192, 70000>(rt, call)
        || run_within::<700000, 80000, 70000>(rt, call);
    ran.then_some(())
}
