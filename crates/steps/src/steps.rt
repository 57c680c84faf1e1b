// The top frame's own steps: load, build and branch, and the loop that never sees the frame table.
ghost use Rattle.std.specs.Prelude.{◌≡◌, false, ◌+◌, ◌≤◌, ◌<◌, length};
ghost use Rattle.rules.specs.Base.{byte_at};
ghost use Rattle.rules.specs.Container.{payload};
ghost use Rattle.rules.specs.Established.{Parsed};
ghost use Rattle.rules.specs.Heap.{is_constant, number_of};
ghost use Rattle.store.specs.Cells.{label_in};
ghost use Rattle.fetch.specs.Indexed.{constructor_arity};
ghost use Rattle.fetch.specs.Places.{Inside};
ghost use Rattle.steps.specs.Stands.{Lent};
ghost use Rattle.steps.specs.Steps.{top_reference, Loads, Builds, Branches, Stepped};
ghost use Rattle.steps.specs.Pauses.{Ready, Pauses};

use crate::state::{Registers, Rest, Table};
use fetch::{constructor_arity, fetch, place_behind};
use store::Limits;

// Load: slot a is copied on top.
fn load(
    stack: &mut [u16],
    m: Limits,
    r: Registers,
    next: usize,
    a: usize,
) -> Result<Registers, Rest>
    requires { (0 < a) × (r.base + a ≤ r.top) × (r.top ≤ m.stack) × (m.stack ≤ length stack.old) × (m.stack ≤ 65535) }
    ensures { Loads m stack.old r next a stack.new result }
{
    let top = r.top;
    if top >= m.stack {
        return Err(Rest::OutOf(Table::Stack));
    }
    stack[top] = stack[r.base + a - 1];
    Ok(Registers {
        at: next,
        top: top + 1,
        ..r
    })
}

// Build: constructor c takes the place of the top values that are its arguments. A constant takes no cell.
fn build(
    file: &[u8],
    cells: &mut [u16],
    stack: &mut [u16],
    m: Limits,
    r: Registers,
    next: usize,
    c: usize,
) -> Result<Registers, Rest>
    requires { (Parsed file.now × (c < byte_at (payload file.now) 2)) × Lent m cells.old stack.old
        × (constructor_arity file.now c ≤ r.top) × (r.top ≤ m.stack) }
    ensures { Builds m cells.old stack.old r next c (constructor_arity file.now c)
        cells.new stack.new result }
{
    let n = constructor_arity(file, c);
    let used = r.used;
    let from = r.top - n;
    if from >= m.stack {
        return Err(Rest::OutOf(Table::Stack));
    }
    if n == 0 {
        stack[from] = c as u16;
        return Ok(Registers {
            at: next,
            top: from + 1,
            ..r
        });
    }
    if used >= m.cells {
        return Err(Rest::OutOf(Table::Cells));
    }
    stack[from] = store::put_cell(cells, used, c as u16, stack, from, n);
    Ok(Registers {
        at: next,
        top: from + 1,
        used: used + 1,
        ..r
    })
}

// Branch: a top value of constructor c gives way to its arguments; with any other, b is next.
fn branch(
    file: &[u8],
    cells: &[u16],
    stack: &mut [u16],
    m: Limits,
    r: Registers,
    next: usize,
    c: usize,
    b: usize,
) -> Result<Registers, Rest>
    requires lent { Lent m cells.now stack.old × (0 < r.top) × (r.top ≤ m.stack)
        × (top_reference stack.old r < number_of m.cells) }
    requires parsed { label_in cells.now (top_reference stack.old r) ≡ c → is_constant (top_reference stack.old r) ≡ false
        → Parsed file.now × (c < byte_at (payload file.now) 2) }
    requires b_nonzero { (label_in cells.now (top_reference stack.old r) ≡ c → ⊥) → (0 < b) × (b ≤ 256) × Inside r.code
        × (r.code ≤ 33000) }
    ensures { Branches m cells.now stack.old r next c b (constructor_arity file.now c)
        stack.new result }
{
    let last = r.top - 1;
    let k = usize::from(stack[last]);
    if store::constructor_at(cells, k) != c {
        return Ok(Registers {
            at: place_behind(r.code, b - 1),
            ..r
        });
    }
    if store::is_constant(k) {
        return Ok(Registers {
            at: next,
            top: last,
            ..r
        });
    }
    let n = constructor_arity(file, c);
    if last + n > m.stack {
        return Err(Rest::OutOf(Table::Stack));
    }
    store::spread(cells, k, stack, last, n);
    Ok(Registers {
        at: next,
        top: last + n,
        ..r
    })
}

// One step of the top frame, or why it rests.
fn one(
    file: &[u8],
    cells: &mut [u16],
    stack: &mut [u16],
    m: Limits,
    r: Registers,
) -> Result<Registers, Rest>
    requires { Ready file.now m cells.old stack.old r × (0 < r.left) }
    ensures { Stepped file.now m cells.old stack.old r cells.new stack.new result }
{
    let f = fetch(file, r.at);
    let w = f.word;
    let operation = w % 256;
    let a = (w / 256 % 256) as usize;
    // By the byte and no Instruction, which would be made and taken apart again at every step.
    match operation {
        1 => load(stack, m, r, f.next, a),
        2 => build(file, cells, stack, m, r, f.next, a),
        3 => Err(Rest::Calls(a)),
        4 => branch(file, cells, stack, m, r, f.next, a, (w / 65536) as usize),
        5 => Err(Rest::Returns),
        _ => Err(Rest::Stops),
    }
}

// For the crates above: runs the top frame until it calls, returns or stops, a table is full, or no step is left.
pub fn straight(
    file: &[u8],
    cells: &mut [u16],
    stack: &mut [u16],
    m: Limits,
    start: Registers,
) -> (Registers, Rest)
    requires { Ready file.now m cells.old stack.old start }
    ensures { Pauses file.now m cells.old stack.old start cells.new stack.new
        result.0 result.1 }
{
    let mut r = start;
    // The steps that are left stand in the registers, since a call and a return take one too.
    while r.left > 0 {
        match one(file, cells, stack, m, r) {
            Ok(t) => {
                r = Registers {
                    left: t.left - 1,
                    ..t
                };
            }
            Err(rest) => return (r, rest),
        }
    }
    (r, Rest::Spent)
}
