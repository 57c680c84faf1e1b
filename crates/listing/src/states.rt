// The types of the stack on arrival at an instruction, as the type pass of the check works them out.
ghost use Rattle.std.specs.Prelude.{◌≡◌, ◌+◌, ◌≤◌, ℕ, Some, IfSome};

use operands::{Stack, TypedStep};
use rules::records::{ConstructorRecord, Declaration, HeadRecord, Instruction};
use standing::find;

// What instructions can name: so many constructors, and so many functions, whose heads stand at these offsets.
#[derive(Clone, Copy)]
pub struct Names {
    pub constructors: u8,
    pub functions: u8,
    pub heads: [usize; 32],
}

// The arguments of a function arrive at its first instruction.
pub fn start(d: Declaration) -> Option<Stack> {
    if 4 < d.arity {
        return None;
    }
    Some(Stack::empty().push_arguments(d))
}

fn constructor_named(file: &[u8], names: &Names, c: u8) -> Option<Declaration>
    ensures { IfSome result (λ d. d.arity ≤ 4) }
{
    if names.constructors <= c {
        return None;
    }
    let r = find::<ConstructorRecord>(file, readers::constructor_offset(usize::from(c)))?;
    if 4 < r.declaration.arity {
        return None;
    }
    Some(r.declaration)
}

fn function_named(file: &[u8], names: &Names, g: u8) -> Option<Declaration>
    ensures { IfSome result (λ d. d.arity ≤ 4) }
{
    if names.functions <= g {
        return None;
    }
    let head = find::<HeadRecord>(file, *names.heads.get(usize::from(g))?)?;
    if 4 < head.declaration.arity {
        return None;
    }
    Some(head.declaration)
}

// What leaves instruction i of a function with this result type where this stack arrives, by the rule of its operation: nothing where
// the rule is broken. Where the flow is right, nothing leads past 256: testing that is shorter than carrying it along.
pub fn leave(
    file: &[u8],
    names: &Names,
    res: u8,
    i: usize,
    ins: Instruction,
    st: Stack,
) -> Option<TypedStep>
    ensures next { (next : Stack) → result ≡ Some (TypedStep.Next next) → i + 1 ≤ 256 }
    ensures both { (next : Stack) (to : ℕ) → result ≡ Some (TypedStep.Both next to) → (i + 1 ≤ 256) × (to ≤ 256) }
{
    let step = match ins {
        Instruction::Load(a) => operands::load(st, a),
        Instruction::Build(c) => operands::make(st, constructor_named(file, names, c)),
        Instruction::Call(g) => operands::make(st, function_named(file, names, g)),
        Instruction::Branch(_, 0) => None,
        Instruction::Branch(c, b) => operands::branch(st, constructor_named(file, names, c), b),
        Instruction::Return => operands::finish(st, res),
        Instruction::Stop => Some(TypedStep::Ends),
    }?;
    match step {
        TypedStep::Ends => Some(step),
        TypedStep::Next(_) if i < 256 => Some(step),
        TypedStep::Both { to, .. } if i < 256 && to <= 256 => Some(step),
        _ => None,
    }
}
