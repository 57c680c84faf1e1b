// The flow pass, 7: where the paths of a function's code lead.
#![tactic(auto)]

ghost use Rattle.std.specs.Prelude.{◌≡◌, [], ◌∷◌, Bool, false, ◌&&◌, ℕ, suc, ◌≤◌, ltb, eqb};
ghost use Rattle.std.specs.Prelude.{Option};
ghost use Rattle.rules.specs.Answers.{told};
ghost use Rattle.rules.specs.Base.{found};
ghost use Rattle.rules.specs.Container.{payload};
ghost use Rattle.rules.specs.Flow.{passing, leaves_right, flow_of, flow_right};
ghost use Rattle.rules.specs.Established.{Verified, LaidOut};
ghost use Rattle.rules.specs.There.{FunctionThere};
ghost use Rattle.rules.specs.Records.{function_of, program_in, or_else};
ghost use Rattle.flow.specs.FlowSteps.{Waits, join_of, FlowSays};

use program::Layout;
use rules::answers::{Place, Reason};
use rules::records::Instruction;

// What has arrived at an instruction so far: no path, one, which has passed a build or call or has not, or several.
#[derive(Clone, Copy, PartialEq, Eq)]
enum Arrivals {
    Nothing,
    One { past: bool },
    Several,
}

// What leaves an instruction that is right: nothing; a path to the next one, which has passed a build or call or has not; or one to
// the next one and one to a branch's else target, neither of which has.
#[derive(Clone, Copy, PartialEq, Eq)]
pub enum FlowStep {
    Ends,
    Next { past: bool },
    Both { to: usize },
}

// One path more at an instruction.
fn joined(arrived: Arrivals, past: bool) -> Arrivals
    ensures { result ≡ join_of arrived past }
{
    match arrived {
        Arrivals::Nothing => Arrivals::One { past },
        _ => Arrivals::Several,
    }
}

// "Any instruction but return and stop has one after it".
fn onward(i: usize, last: usize, past: bool) -> Option<FlowStep>
    ensures { FlowSays last i result (ltb i last) (found ((suc i, past) ∷ [])) }
{
    if i >= last {
        return None;
    }
    Some(FlowStep::Next { past })
}

// "A branch target lies in i + 2 to L"; "No branch follows a build or call on its path".
#[tactic(auto, unfolding(rules::specs::Flow::leaves_right, rules::specs::Flow::passing))]
fn fork(i: usize, last: usize, b: u16, past: bool) -> Option<FlowStep>
    requires { i ≤ 256 }
    ensures { (c : ℕ)
        → FlowSays last i result (leaves_right last i (Instruction.Branch c b) past) (passing i (Instruction.Branch c b) past) }
{
    let to = usize::from(b);
    if to < i + 2 || to > last || past {
        return None;
    }
    Some(FlowStep::Both { to })
}

// "Counting arrivals from earlier instructions, each instruction from 2 on has exactly one".
#[tactic(auto, unfolding(rules::specs::Flow::leaves_right, rules::specs::Flow::passing))]
fn flow_step(i: usize, last: usize, ins: Instruction, arrived: Arrivals) -> Option<FlowStep>
    requires { i ≤ 256 }
    ensures { (n : ℕ) (o : Option Bool) → Waits arrived n o
        → FlowSays last i result (eqb n 1 && leaves_right last i ins (or_else o false)) (passing i ins (or_else o false)) }
{
    let Arrivals::One { past } = arrived else {
        return None;
    };
    match ins {
        Instruction::Load(_) => onward(i, last, past),
        Instruction::Build(_) => onward(i, last, true),
        Instruction::Call(_) => onward(i, last, true),
        Instruction::Branch(_, b) => fork(i, last, b, past),
        Instruction::Return | Instruction::Stop => Some(FlowStep::Ends),
    }
}

// The flow of function g, whose head stands at an offset: a slot for each instruction, from 1 on, has what arrives there.
fn flow_of(file: &[u8], g: usize, at: usize) -> Result<(), Reason>
    requires { Verified file.now × FunctionThere (payload file.now) at }
    ensures { told result ≡ flow_of g (function_of (payload file.now) at) }
{
    let code = program::code_at(file, at);
    let mut waiting = [Arrivals::Nothing; 257];
    waiting[1] = Arrivals::One { past: false };
    for k in 0..code.last {
        let i = k + 1;
        let ins = readers::instruction(file, readers::instruction_offset(code.base, k));
        let Some(step) = flow_step(i, code.last, ins, waiting[i]) else {
            return Err(Reason::BadFlow(Place {
                function: g,
                instruction: i,
            }));
        };
        match step {
            FlowStep::Ends => {}
            FlowStep::Next { past } => waiting[i + 1] = joined(waiting[i + 1], past),
            FlowStep::Both { to } => {
                waiting[i + 1] = joined(waiting[i + 1], false);
                waiting[to] = joined(waiting[to], false);
            }
        }
    }
    Ok(())
}

// For the crates above: number 7 over all functions.
pub fn flows(file: &[u8], layout: &Layout) -> Result<(), Reason>
    requires { LaidOut file.now layout.now.header layout.now.heads }
    ensures { told result ≡ flow_right (program_in file.now) }
{
    for g in 0..usize::from(layout.header.functions) {
        flow_of(file, g, layout.heads[g])?;
    }
    Ok(())
}
