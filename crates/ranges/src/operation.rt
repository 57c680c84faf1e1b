// The instruction that a record says.
ghost use Rattle.std.specs.Prelude.{◌≡◌};
ghost use Rattle.rules.specs.Records.{operation};

use rules::records::{Instruction, InstructionRecord};

// For the crates above: the instruction that a record says, if its fields are in range. An operand that is not used is 0.
#[tactic(auto, unfolding(rules::specs::Records::operation))]
pub fn operation_of(r: InstructionRecord) -> Option<Instruction>
    ensures { result ≡ operation r }
{
    match (r.operation, r.a, r.b) {
        (1, slot, 0) => Some(Instruction::Load(slot)),
        (2, constructor, 0) => Some(Instruction::Build(constructor)),
        (3, function, 0) => Some(Instruction::Call(function)),
        (4, constructor, target) => Some(Instruction::Branch(constructor, target)),
        (5, 0, 0) => Some(Instruction::Return),
        (6, 0, 0) => Some(Instruction::Stop),
        _ => None,
    }
}
