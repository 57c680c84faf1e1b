// What each operation does to the types of the stack. An answer is what leaves the instruction, or None where it breaks a rule of 8.
ghost use Rattle.std.specs.Prelude.{◌≡◌, List, ℕ, ◌≤◌};
ghost use Rattle.std.specs.Option.{option_map, IfSome};
ghost use Rattle.rules.specs.Program.{Function, Program};
ghost use Rattle.rules.specs.Stacks.{push};
ghost use Rattle.rules.specs.Types.{types_on, type_rule};
ghost use Rattle.operands.specs.Operands.{stack_of, TypeSays, signature_of, applied_to, branched_to};

use crate::stack::Stack;
use rules::records::{Declaration, Instruction};

// What leaves an instruction: nothing; the next one, with this stack; or the next one and a branch's else target, with the stack as it was.
#[derive(Clone, Copy)]
pub enum TypedStep {
    Ends,
    Next(Stack),
    Both { next: Stack, to: usize },
}

// One type more, and the next instruction.
fn onward(st: Stack, t: u8) -> Option<TypedStep>
    ensures { (s : Program) (n : ℕ) (f : Function) (i : ℕ) (here : List ℕ)
        → TypeSays n i here result (types_on s n f i (push (stack_of st) t)) }
{
    let next = st.grow(&[t])?;
    Some(TypedStep::Next(next))
}

// For the crates above: a load, which copies slot a on top.
pub fn load(st: Stack, a: u8) -> Option<TypedStep>
    ensures { (s : Program) (n : ℕ) (f : Function) (i : ℕ)
        → TypeSays n i (stack_of st) result (type_rule s n f i (Instruction.Load a) (stack_of st)) }
{
    let slot = usize::from(a);
    if slot == 0 || slot > st.height {
        return None;
    }
    onward(st, st.types[slot - 1])
}

// For the crates above: a build or a call, by the signature that it names: the arguments give way to the result.
pub fn make(st: Stack, named: Option<Declaration>) -> Option<TypedStep>
    requires { IfSome named (λ d. d.arity ≤ 4) }
    ensures { (s : Program) (n : ℕ) (f : Function) (i : ℕ) (here : List ℕ)
        → TypeSays n i here result (applied_to s n f i (option_map signature_of named) (stack_of st)) }
{
    let d = named?;
    let types = d.types;
    let rest = st.below(&types[..usize::from(d.arity)])?;
    onward(rest, d.result)
}

// For the crates above: a branch, by the signature of its constructor: the value gives way to the arguments, else it stays.
pub fn branch(st: Stack, named: Option<Declaration>, b: u16) -> Option<TypedStep>
    requires { IfSome named (λ d. d.arity ≤ 4) }
    ensures { (s : Program) (n : ℕ) (f : Function) (i : ℕ)
        → TypeSays n i (stack_of st) result (branched_to s n f i (option_map signature_of named) b (stack_of st)) }
{
    let d = named?;
    let rest = st.below(&[d.result])?;
    let next = rest.grow(&d.types[..usize::from(d.arity)])?;
    Some(TypedStep::Both {
        next,
        to: usize::from(b),
    })
}

// For the crates above: a return, with the result on top.
pub fn finish(st: Stack, res: u8) -> Option<TypedStep>
    ensures { (s : Program) (n : ℕ) (f : Function) (i : ℕ) → f.result ≡ res
        → TypeSays n i (stack_of st) result (type_rule s n f i Instruction.Return (stack_of st)) }
{
    st.below(&[res])?;
    Some(TypedStep::Ends)
}
