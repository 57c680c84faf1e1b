// Number 8: the types of the stack along the paths of a function's code.
ghost use Rattle.std.specs.Prelude.{◌≡◌, ◌<◌};
ghost use Rattle.rules.specs.Answers.{told};
ghost use Rattle.rules.specs.Records.{program_in, function_in};
ghost use Rattle.rules.specs.Types.{types_of, types_right};
ghost use Rattle.rules.specs.Established.{Flowing, LaidOut};

use crate::step;
use operands::{Stack, TypedStep};
use program::Layout;
use rules::answers::{Place, Reason};

// The types of function g: a slot for each instruction, from 1 on, has the stack that arrives there.
fn types_of(file: &[u8], layout: &Layout, g: usize) -> Result<(), Reason>
    requires { Flowing file.now × LaidOut file.now layout.now.header layout.now.heads
        × (g < layout.now.header.functions) }
    ensures { told result ≡ types_of (program_in file.now) g (function_in file.now g) }
{
    let at = layout.heads[g];
    let signature = readers::declaration(file, at);
    let code = program::code_at(file, at);
    let none = Stack::empty();
    let mut waiting = [none; 257];
    waiting[1] = none.push_arguments(signature);
    for k in 0..code.last {
        let i = k + 1;
        let ins = readers::instruction(file, readers::instruction_offset(code.base, k));
        let here = waiting[i];
        let Some(step) = step::type_step(file, layout, signature.result, ins, here) else {
            return Err(Reason::BadTypes(Place {
                function: g,
                instruction: i,
            }));
        };
        match step {
            TypedStep::Ends => {}
            TypedStep::Next(next) => waiting[i + 1] = next,
            TypedStep::Both { next, to } => {
                waiting[to] = here;
                waiting[i + 1] = next;
            }
        }
    }
    Ok(())
}

// For the crates above: number 8 over all functions, where 7 has passed.
pub fn types(file: &[u8], layout: &Layout) -> Result<(), Reason>
    requires { Flowing file.now × LaidOut file.now layout.now.header layout.now.heads }
    ensures { told result ≡ types_right (program_in file.now) }
{
    for g in 0..usize::from(layout.header.functions) {
        types_of(file, layout, g)?;
    }
    Ok(())
}
