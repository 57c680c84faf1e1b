// After the last step: the result is counted and written, or the reason is said.
#![tactic(auto)]

ghost use Rattle.std.specs.Prelude.{◌≡◌, List, ℕ, ◌+◌, ◌-◌, ◌/◌, ◌≤◌, ◌<◌, length};
ghost use Rattle.rules.specs.Answers.{refusal_of, at_place};
ghost use Rattle.rules.specs.Run.{Outcome, answer, finished};
ghost use Rattle.store.specs.declared.frames.Frame.{Frame};
ghost use Rattle.store.specs.declared.limits.Limits.{Limits};
ghost use Rattle.store.specs.Limits.{Wiped};
ghost use Rattle.fetch.specs.Places.{offset_at, Inside};
ghost use Rattle.result.specs.Result.{bytes_of, Readable};
ghost use Rattle.steps.specs.Steps.{number_for};
ghost use Rattle.delivery.specs.Delivers.{Ended, Delivers};

use machine::End;
use rules::answers::{Answer, Ending, Place, Reason};
use steps::{Registers, Table};
use store::Limits;

// The result in cell k to the output's front, where there is room for it.
fn deliver_result(file: &[u8], cells: &[u16], k: usize, steps: u32, out: &mut [u8]) -> Answer
    requires readable { Readable file.now cells.now k }
    requires k_len_bound { length (bytes_of file.now cells.now k) < 4294967296 }
    ensures { Delivers (answer (finished (bytes_of file.now cells.now k)) steps) out.old
        out.new result }
{
    let needed = result::count(file, cells, k);
    if out.len() < needed {
        return Answer {
            ending: Ending::Refused(Reason::OutputTooShort { needed }),
            steps,
        };
    }
    result::write(file, cells, k, out);
    Answer {
        ending: Ending::Result(needed),
        steps,
    }
}

// The instruction that the top frame stands at.
fn place_of(r: Registers) -> Place
    requires { Inside r.code × Inside r.at × (r.code ≤ 40000) × (r.at ≤ 40000) × (offset_at r.code ≤ offset_at r.at) }
    ensures { result ≡ record { function = r.function; instruction = (offset_at r.at - offset_at r.code) / 4 + 1 } }
{
    Place {
        function: r.function,
        instruction: fetch::number_at(r.code, r.at),
    }
}

// The table that had no room for the next step.
fn out_of(table: Table, place: Place) -> Reason
    ensures { refusal_of result ≡ at_place (number_for table) place }
{
    match table {
        Table::Cells => Reason::OutOfCells(place),
        Table::Stack => Reason::OutOfStack(place),
        Table::Frames => Reason::OutOfFrames(place),
    }
}

// What the run's end says.
fn deliver(
    file: &[u8],
    cells: &[u16],
    stack: &[u16],
    r: Registers,
    end: End,
    budget: usize,
    out: &mut [u8],
) -> Answer
    requires { (m : Limits) × (says : Outcome) × (i : ℕ) × (ws : List Frame)
        × Ended file.now m budget says cells.now stack.now r i ws end }
    ensures { (m : Limits) (says : Outcome) (i : ℕ) (ws : List Frame)
        → Ended file.now m budget says cells.now stack.now r i ws end
        → Delivers says out.old out.new result }
{
    let steps = (budget - r.left) as u32;
    match end {
        End::Result => {
            let last = usize::from(stack[r.top - 1]);
            deliver_result(file, cells, last, steps, out)
        }
        End::Stops => Answer {
            ending: Ending::Aborted,
            steps: steps + 1,
        },
        End::Spent => Answer {
            ending: Ending::Refused(Reason::BudgetSpent(place_of(r))),
            steps,
        },
        End::OutOf(table) => Answer {
            ending: Ending::Refused(out_of(table, place_of(r))),
            steps,
        },
    }
}

// For the crates above: after the run, its answer, and the usable entries of cells and stack zero.
pub fn finish(
    file: &[u8],
    cells: &mut [u16],
    stack: &mut [u16],
    m: Limits,
    r: Registers,
    end: End,
    budget: u32,
    out: &mut [u8],
) -> Answer
    requires { (says : Outcome) × (i : ℕ) × (ws : List Frame)
        × Ended file.now m budget says cells.old stack.old r i ws end }
    ensures { ((says : Outcome) (i : ℕ) (ws : List Frame)
        → Ended file.now m budget says cells.old stack.old r i ws end
        → Delivers says out.old out.new result)
        × Wiped m cells.old stack.old cells.new stack.new }
{
    let answer = deliver(file, cells, stack, r, end, budget as usize, out);
    store::wipe(cells, stack, m);
    answer
}
