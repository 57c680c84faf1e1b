// Constants and cells, told apart by their number. A constant is the number of its constructor; cells count from there on, five numbers
// each, the constructor and four arguments.
ghost use Rattle.std.specs.Prelude.{◌≡◌, false, ◌+◌, ◌≤◌, ◌<◌, length};
ghost use Rattle.rules.specs.Heap.{is_constant, number_of};
ghost use Rattle.store.specs.Cells.{refs, argument_in, arguments_in, cell_of, cells_to, label_in, CellRoom, RefsPut, CellPut};

use crate::copying::copy;

// How many numbers are for constants: as many as there can be constructors.
const CONSTANTS: usize = 64;

// For the crates above: whether a reference is a constant.
pub fn is_constant(k: usize) -> bool
    ensures { result ≡ is_constant k }
{
    k < CONSTANTS
}

// For the crates above: the constructor of a reference. No cell is read for a constant.
pub fn constructor_at(cells: &[u16], k: usize) -> usize
    requires { CellRoom cells.now (cells_to k) × (k < 65536) }
    ensures { (result ≡ label_in cells.now k) × (result < 65536) }
{
    if k < CONSTANTS {
        return k;
    }
    usize::from(cells[5 * (k - CONSTANTS)])
}

// For the crates above: argument j of a reference that is no constant.
pub fn argument_at(cells: &[u16], k: usize, j: usize) -> usize
    requires { CellRoom cells.now (cells_to k) × (k < 65536) × (is_constant k ≡ false) × (j < 4) }
    ensures { (result ≡ argument_in cells.now (cell_of k) j) × (result < 65536) }
{
    usize::from(cells[5 * (k - CONSTANTS) + 1 + j])
}

// For the crates above: makes cell i of constructor c over the n references of a stack from a place on, and gives its number.
#[tactic(auto, unfolding(crate::specs::Cells::CellRoom))]
pub fn put_cell(cells: &mut [u16], i: usize, c: u16, stack: &[u16], from: usize, n: usize) -> u16
    requires { CellRoom cells.old (i + 1) × (i < 65471) × (n ≤ 4) × (from + n ≤ length stack.now) }
    ensures { (result ≡ number_of i) × CellPut i c (refs stack.now from n) cells.old cells.new }
{
    let base = 5 * i;
    cells[base] = c;
    cells[base + 1..base + 5].fill(0);
    copy(stack, from, cells, base + 1, n);
    (i + CONSTANTS) as u16
}

// For the crates above: puts the n arguments of a reference that is no constant at a place of a stack.
pub fn spread(cells: &[u16], k: usize, stack: &mut [u16], to: usize, n: usize)
    requires { CellRoom cells.now (cells_to k) × (k < 65536) × (is_constant k ≡ false) × (n ≤ 4) × (to + n ≤ length stack.old) }
    ensures { RefsPut to (arguments_in cells.now (cell_of k) n) stack.old stack.new }
{
    copy(cells, 5 * (k - CONSTANTS) + 1, stack, to, n);
}
