// What is usable of the lent tables, and made zero after the run.
ghost use Rattle.std.specs.Prelude.{◌≡◌, ◌≤◌, ◌/◌, min, length};
ghost use Rattle.store.specs.Cells.{CellRoom};
ghost use Rattle.store.specs.Limits.{Wiped};

// What is usable of the tables lent.
#[derive(Clone, Copy)]
pub struct Limits {
    pub cells: usize,
    pub stack: usize,
    pub frames: usize,
}

// For the crates above: what is usable of tables of so many numbers, five to a cell, and so many frames. Cells are fewer, since constants
// have numbers too.
pub fn usable(cells: usize, stack: usize, frames: usize) -> Limits
    ensures { (result.cells ≡ min 65471 (cells / 5)) × (result.stack ≡ min 65535 stack) × (result.frames ≡ min 65535 frames) }
{
    Limits {
        cells: (cells / 5).min(65471),
        stack: stack.min(65535),
        frames: frames.min(65535),
    }
}

// For the crates above: after the run, the usable entries of cells and stack zero, any beyond kept.
#[tactic(auto, unfolding(crate::specs::Cells::CellRoom))]
pub fn wipe(cells: &mut [u16], stack: &mut [u16], m: Limits)
    requires { CellRoom cells.old m.cells × (m.cells ≤ 65471) × (m.stack ≤ length stack.old) }
    ensures { Wiped m cells.old stack.old cells.new stack.new }
{
    cells[..5 * m.cells].fill(0);
    stack[..m.stack].fill(0);
}
