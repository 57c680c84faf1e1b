// One instruction of the type pass: the signature that it names is looked up, and its rule applied.
ghost use Rattle.std.specs.Prelude.{◌≡◌, ℕ};
ghost use Rattle.rules.specs.Program.{Function};
ghost use Rattle.rules.specs.Records.{program_in};
ghost use Rattle.rules.specs.Types.{type_rule};
ghost use Rattle.rules.specs.Established.{LaidOut};
ghost use Rattle.operands.specs.Operands.{stack_of, TypeSays};

use crate::signature::{constructor_signature, function_signature};
use operands::{Stack, TypedStep};
use program::Layout;
use rules::records::Instruction;

// An instruction of a function with this result type, where this stack arrives.
pub fn type_step(
    file: &[u8],
    layout: &Layout,
    res: u8,
    ins: Instruction,
    st: Stack,
) -> Option<TypedStep>
    requires { LaidOut file.now layout.now.header layout.now.heads }
    ensures { (g i : ℕ) (f : Function) → f.result ≡ res
        → TypeSays g i (stack_of st) result (type_rule (program_in file.now) g f i ins (stack_of st)) }
{
    match ins {
        Instruction::Load(a) => operands::load(st, a),
        Instruction::Build(c) => operands::make(st, constructor_signature(file, layout.header, c)),
        Instruction::Call(g) => operands::make(st, function_signature(file, layout, g)),
        Instruction::Branch(c, b) => {
            operands::branch(st, constructor_signature(file, layout.header, c), b)
        }
        Instruction::Return => operands::finish(st, res),
        Instruction::Stop => Some(TypedStep::Ends),
    }
}
