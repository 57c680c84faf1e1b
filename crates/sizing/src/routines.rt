// What the walk reads of a function: its arity, bound and code; and what a build or a call takes and makes.
ghost use Rattle.std.specs.Prelude.{◌≡◌, ◌+◌, ◌≤◌, length};
ghost use Rattle.rules.specs.Container.{payload};
ghost use Rattle.rules.specs.Records.{constructor_offset};
ghost use Rattle.rules.specs.Established.{Verified};
ghost use Rattle.rules.specs.There.{FunctionThere};
ghost use Rattle.sizing.specs.Routines.{Records, RoutineIs, built_maker, OperandThere, maker_in};

use crate::bounds::Bound;
use readers::{alternative_offset, constructor, constructor_offset, head};
use rules::records::Instruction;

// A function: its arity, its size bound, where its code starts, and how many instructions that has.
#[derive(Clone, Copy)]
pub struct Routine {
    pub arity: usize,
    pub bound: Bound,
    pub base: usize,
    pub last: usize,
}

// What makes an entry, of how many, and the size bound of that.
#[derive(Clone, Copy)]
pub struct Maker {
    pub arity: usize,
    pub bound: Bound,
}

// The function whose head stands at an offset.
pub fn routine_at(file: &[u8], at: usize) -> Routine
    requires { Verified file.now × FunctionThere (payload file.now) at }
    ensures { RoutineIs (payload file.now) at result }
{
    let h = head(file, at);
    let count = usize::from(h.alternatives);
    Routine {
        arity: usize::from(h.declaration.arity),
        bound: Bound::Declared { head: at, count },
        base: alternative_offset(at, count),
        last: usize::from(h.instructions),
    }
}

// A build of constructor c.
fn build_maker(file: &[u8], c: usize) -> Maker
    requires { Verified file.now × (constructor_offset c + 8 ≤ length (payload file.now)) }
    ensures { result ≡ built_maker (payload file.now) c }
{
    let k = constructor(file, constructor_offset(c));
    Maker {
        arity: usize::from(k.declaration.arity),
        bound: Bound::Built { weight: k.weight },
    }
}

// What a build or a call makes; no other instruction makes an entry.
pub fn maker_of(file: &[u8], heads: &[usize; 32], ins: Instruction) -> Option<Maker>
    requires { Records file.now heads.now × OperandThere (payload file.now) ins }
    ensures { result ≡ maker_in (payload file.now) ins }
{
    match ins {
        Instruction::Build(c) => Some(build_maker(file, usize::from(c))),
        Instruction::Call(g) => {
            let f = routine_at(file, heads[usize::from(g)]);
            Some(Maker {
                arity: f.arity,
                bound: f.bound,
            })
        }
        _ => None,
    }
}
