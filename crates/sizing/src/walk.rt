// The walk over a function's code in file order, and over all functions.
ghost use Rattle.std.specs.Prelude.{◌≡◌, List, ℕ, ◌≤◌, None};
ghost use Rattle.rules.specs.Answers.{told};
ghost use Rattle.rules.specs.Records.{program_in, function_in};
ghost use Rattle.rules.specs.Shapes.{sizes_of, sizes_right};
ghost use Rattle.rules.specs.declared.records.Instruction.TheVariants as ins;
ghost use Rattle.rules.specs.Established.{Typechecked, LaidOut};
ghost use Rattle.sizing.specs.Moves.{StartIs, MoveAsks, LineMoveAsks, StepAsks, StepSays, FunctionAsks};

use crate::line::straight_line;
use crate::paths::{Saved, branch_variable, load_variable};
use crate::routines::{Routine, routine_at};
use crate::splits::{Split, Splits};
use program::Layout;
use readers::{constructor_declaration, instruction, instruction_offset};
use rules::answers::{Place, Reason};
use rules::records::Instruction;

// What leaves an instruction, where it is visited: a state for the next one, and one for an else target, with its number; and the
// instruction to go on at.
#[derive(Clone, Copy)]
pub struct Moved {
    pub next: Option<Saved>,
    pub other: Option<(usize, Saved)>,
    pub on: usize,
}

// The state at the first instruction: the parameters are the variables 0, 1, ..
fn start_state(arity: usize) -> Saved
    requires { arity ≤ 4 }
    ensures { StartIs arity result }
{
    Saved {
        height: arity,
        count: arity,
        stack: [0u8, 1, 2, 3, 4, 5, 6, 7, 8, 9, 10, 11, 12, 13, 14, 15],
        splits: Splits {
            taken: 0,
            list: [Split {
                variable: 0,
                constructor: 0,
                first: 0,
                parts: 0,
            }; 16],
        },
    }
}

// Nothing leaves.
fn stay(on: usize) -> Moved
    ensures { result ≡ record { next = None; other = None; on = on } }
{
    Moved {
        next: None,
        other: None,
        on,
    }
}

// A branch on constructor c, else b, at instruction i.
fn branch(file: &[u8], g: usize, i: usize, st: &Saved, c: u8, b: u16) -> Result<Moved, Reason>
    requires { (heads : List ℕ) × MoveAsks file.now heads g i st.now (ins.Branch c b) }
    ensures { StepSays file.now g i st.now result }
{
    let d = constructor_declaration(file, usize::from(c));
    let Some(r) = branch_variable(st, c, d.arity) else {
        return Err(Reason::TooManyForms(Place {
            function: g,
            instruction: i,
        }));
    };
    Ok(Moved {
        next: r.next,
        other: r.other.map(|x| (usize::from(b), x)),
        on: i + 1,
    })
}

// Instruction i, with what arrives there. The first build or call begins a straight line to the path's end.
fn step(
    file: &[u8],
    heads: &[usize; 32],
    g: usize,
    f: Routine,
    i: usize,
    st: &Saved,
) -> Result<Moved, Reason>
    requires { StepAsks file.now heads.now g f i st.now }
    ensures { StepSays file.now g i st.now result }
{
    let ins = instruction(file, instruction_offset(f.base, i - 1));
    match ins {
        Instruction::Load(a) => Ok(Moved {
            next: Some(load_variable(st, usize::from(a) - 1)),
            other: None,
            on: i + 1,
        }),
        Instruction::Build(_) | Instruction::Call(_) => line_move(file, heads, g, f, i, st),
        Instruction::Branch(c, b) => branch(file, g, i, st, c, b),
        Instruction::Return | Instruction::Stop => Ok(stay(i + 1)),
    }
}

// A first build or call, at instruction i.
fn line_move(
    file: &[u8],
    heads: &[usize; 32],
    g: usize,
    f: Routine,
    i: usize,
    st: &Saved,
) -> Result<Moved, Reason>
    requires { LineMoveAsks file.now heads.now g f i st.now }
    ensures { StepSays file.now g i st.now result }
{
    let on = straight_line(file, heads, g, f, i, st)?;
    Ok(stay(on))
}

// Function g: a slot for each instruction holds what arrives there.
fn function_sizes(file: &[u8], heads: &[usize; 32], g: usize) -> Result<(), Reason>
    requires { FunctionAsks file.now heads.now g }
    ensures { told result ≡ sizes_of (program_in file.now) g (function_in file.now g) }
{
    let f = routine_at(file, heads[g]);
    let mut saved = [None; 258];
    saved[1] = Some(start_state(f.arity));
    let mut i = 1;
    // No for: a straight line is gone along in one step.
    while i <= f.last {
        let Some(st) = saved[i] else {
            i += 1;
            continue;
        };
        let m = step(file, heads, g, f, i, &st)?;
        if let Some((far, other)) = m.other {
            saved[far] = Some(other);
        }
        if let Some(next) = m.next {
            saved[i + 1] = Some(next);
        }
        i = m.on;
    }
    Ok(())
}

// For the crates above: 10 and 9 over all functions.
pub fn sizes(file: &[u8], layout: &Layout) -> Result<(), Reason>
    requires { Typechecked file.now × LaidOut file.now layout.now.header layout.now.heads }
    ensures { told result ≡ sizes_right (program_in file.now) }
{
    for g in 0..usize::from(layout.header.functions) {
        function_sizes(file, &layout.heads, g)?;
    }
    Ok(())
}
