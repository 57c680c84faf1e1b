// Call and return: a frame waits while another is above it.
ghost use Rattle.std.specs.Prelude.{◌≡◌, ◌+◌, ◌-◌, ◌/◌, ◌≤◌, ◌<◌, length};
ghost use Rattle.rules.specs.Base.{byte_at};
ghost use Rattle.rules.specs.Container.{payload};
ghost use Rattle.fetch.specs.Indexed.{Indexed, function_arity, code_at};
ghost use Rattle.fetch.specs.Places.{offset_at, Inside};
ghost use Rattle.machine.specs.Turns.{waiting_for, Enters, Leaves};

use fetch::{Index, code_at, function_arity, number_at, place_behind};
use steps::{Registers, Table};
use store::{Frame, Limits, copy_within};

// The top frame as it waits at a call.
pub fn waiting(r: Registers) -> Frame
    requires { (Inside r.code × Inside r.at × (r.code ≤ 40000) × (r.at ≤ 40000) × (offset_at r.code ≤ offset_at r.at))
        × ((r.function < 32) × (r.base ≤ r.top) × (r.top ≤ 65535)) }
    ensures { result ≡ waiting_for r ((offset_at r.at - offset_at r.code) / 4 + 1) }
{
    Frame {
        function: r.function as u16,
        instruction: number_at(r.code, r.at) as u16,
        height: (r.top - r.base) as u16,
    }
}

// Call: above the frame comes function g, with copies of its arguments.
pub fn enter(
    file: &[u8],
    index: &Index,
    stack: &mut [u16],
    m: Limits,
    r: Registers,
    g: usize,
) -> Result<Registers, Table>
    requires { (Indexed file.now index.now × (g < byte_at (payload file.now) 3) × (function_arity file.now g ≤ r.top))
        × ((r.top ≤ m.stack) × (m.stack ≤ length stack.old) × (m.stack ≤ 65535) × (r.depth < 65535) × (0 < r.left)) }
    ensures { Enters m stack.old r g (function_arity file.now g) (code_at index.now g)
        stack.new result }
{
    let n = function_arity(file, index, g);
    let top = r.top;
    let depth = r.depth + 1;
    if depth >= m.frames {
        return Err(Table::Frames);
    }
    if top + n > m.stack {
        return Err(Table::Stack);
    }
    copy_within(stack, top - n, top, n);
    let code = code_at(index, g);
    Ok(Registers {
        function: g,
        code,
        at: code,
        base: top,
        top: top + n,
        used: r.used,
        depth,
        left: r.left - 1,
    })
}

// Return: the waiting frame goes on behind its call, and the call's arguments give way to the top value.
pub fn leave(file: &[u8], index: &Index, stack: &mut [u16], r: Registers, w: Frame) -> Registers
    requires { (Indexed file.now index.now × (r.function < byte_at (payload file.now) 3)
        × (function_arity file.now r.function ≤ r.base) × (r.base < r.top) × (r.top ≤ length stack.old) × (r.top ≤ 65535))
        × ((w.function < 32) × (w.instruction ≤ 256) × (w.height ≤ r.base) × Inside (code_at index.now w.function)
        × (code_at index.now w.function ≤ 33000)) × ((0 < r.depth) × (0 < r.left)) }
    ensures { Leaves stack.old r w (function_arity file.now r.function)
        (code_at index.now w.function) stack.new result }
{
    let n = function_arity(file, index, r.function);
    let under = r.base - n;
    stack[under] = stack[r.top - 1];
    let function = usize::from(w.function);
    let code = code_at(index, function);
    Registers {
        function,
        code,
        at: place_behind(code, usize::from(w.instruction)),
        base: r.base - usize::from(w.height),
        top: under + 1,
        used: r.used,
        depth: r.depth - 1,
        left: r.left - 1,
    }
}
