// The arguments' cells and the first frame.
ghost use Rattle.std.specs.Prelude.{◌≡◌, ◌<◌};
ghost use Rattle.rules.specs.Records.{program_in};
ghost use Rattle.rules.specs.Run.{cells_loaded};
ghost use Rattle.fetch.specs.Indexed.{code_at};
ghost use Rattle.start.specs.Begins.{Loading, Loaded, first};

use fetch::Index;
use steps::Registers;
use store::Limits;

// A run that has begun: the program's index, what is usable of the tables, and the first frame.
#[derive(Clone, Copy)]
pub struct Begun {
    pub index: Index,
    pub limits: Limits,
    pub start: Registers,
}

// The arguments' cells, their values on the stack, and the first frame.
pub fn load(
    file: &[u8],
    index: &Index,
    arguments: &[u8],
    cells: &mut [u16],
    stack: &mut [u16],
    entry: usize,
    arity: usize,
    budget: usize,
) -> Registers
    requires loading { Loading file.now arguments.now cells.old stack.old arity }
    requires bound { entry < 32 }
    ensures value { result ≡ first entry (code_at index.now entry) arity
        (cells_loaded (program_in file.now) arguments.now) budget }
    ensures loaded { Loaded (program_in file.now) arguments.now arity cells.old stack.old
        cells.new stack.new }
{
    let pending = arguments::make_arguments(file, arguments, cells);
    store::copy(&pending.numbers, pending.at, stack, 0, arity);
    let code = fetch::code_at(index, entry);
    Registers {
        function: entry,
        code,
        at: code,
        base: 0,
        top: arity,
        used: pending.used,
        depth: 0,
        left: budget,
    }
}
