// The arguments' cells.
ghost use Rattle.std.specs.Prelude.{◌≡◌, leb};
ghost use Rattle.rules.specs.Records.{program_in};
ghost use Rattle.rules.specs.Run.{cells_loaded};
ghost use Rattle.arguments.specs.Loading.{Loading, Roomy, MadeFor};

use fetch::constructor_arity;
use store::put_cell;

// The references that no cell has taken yet, from a place on, and how many cells are made.
#[derive(Clone, Copy)]
pub struct Pending {
    pub at: usize,
    pub used: usize,
    pub numbers: [u16; 256],
}

// How many cells the arguments take. Constants take none.
fn cells_needed(file: &[u8], bytes: &[u8]) -> usize
    requires { Loading file.now bytes.now }
    ensures { result ≡ cells_loaded (program_in file.now) bytes.now }
{
    let mut needed = 0;
    // No chain of filter and count: its closure would have to ask that each byte is a known constructor, and that is no plainer.
    for &c in bytes {
        if constructor_arity(file, usize::from(c)) != 0 {
            needed += 1;
        }
    }
    needed
}

// For the crates above: whether so many cells are enough for the arguments. A byte takes one at most, so they are seldom counted.
pub fn enough(file: &[u8], bytes: &[u8], cells: usize) -> bool
    requires { Loading file.now bytes.now }
    ensures { result ≡ leb (cells_loaded (program_in file.now) bytes.now) cells }
{
    bytes.len() <= cells || cells_needed(file, bytes) <= cells
}

// For the crates above: the arguments' cells, from the last byte to the first, constants skipped.
pub fn make_arguments(file: &[u8], bytes: &[u8], cells: &mut [u16]) -> Pending
    requires { Roomy file.now bytes.now cells.old }
    ensures { MadeFor (program_in file.now) bytes.now cells.old cells.new result.numbers
        result.at result.used }
{
    let mut numbers = [0u16; 256];
    let mut at = 256;
    let mut used = 0;
    for i in (0..bytes.len()).rev() {
        let n = constructor_arity(file, usize::from(bytes[i]));
        let mut number = u16::from(bytes[i]);
        if n != 0 {
            number = put_cell(cells, used, number, &numbers, at, n);
            used += 1;
        }
        at = at + n - 1;
        numbers[at] = number;
    }
    Pending { at, used, numbers }
}
