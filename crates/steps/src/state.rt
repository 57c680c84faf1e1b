// The top frame in registers, and why it rests.

// The top frame: its function, the place in the file of that function's code and of its own instruction, its part of the stack, the cells
// in use, how many frames wait below it, the steps that are left.
#[derive(Clone, Copy)]
pub struct Registers {
    pub function: usize,
    pub code: usize,
    pub at: usize,
    pub base: usize,
    pub top: usize,
    pub used: usize,
    pub depth: usize,
    pub left: usize,
}

// A table that has no room for the next step.
#[derive(Clone, Copy)]
pub enum Table {
    Cells,
    Stack,
    Frames,
}

// Why the top frame rests: it calls a function, returns or stops, or no step or no room is left for the next one.
#[derive(Clone, Copy)]
pub enum Rest {
    Calls(usize),
    Returns,
    Stops,
    Spent,
    OutOf(Table),
}
