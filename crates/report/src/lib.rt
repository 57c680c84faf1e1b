// The number and the two places by which a refusal is reported, and the line that tells a verdict.
#![tactic(auto)]

pub mod line;

ghost use Rattle.std.specs.Prelude.{◌≡◌};
ghost use Rattle.rules.specs.Answers.{refusal_of, at_place};
ghost use Rattle.report.specs.Said.{said};
ghost use Rattle.rules.specs.Base.{refusal as refusal_with};

use rules::answers::{Place, Reason};

// A refusal as it is printed and exported.
#[derive(Clone, Copy, Debug, PartialEq, Eq)]
pub struct Numbers {
    pub number: u8,
    pub first: usize,
    pub second: usize,
}

fn refusal(number: u8, first: usize, second: usize) -> Numbers
    ensures { said result ≡ refusal_with number first second }
{
    Numbers {
        number,
        first,
        second,
    }
}

// A number at an instruction of a function.
fn at_place(number: u8, place: Place) -> Numbers
    ensures { said result ≡ at_place number place }
{
    refusal(number, place.function, place.instruction)
}

// The number and the places of a reason, line by line as in the definition.
pub fn numbers_of(reason: Reason) -> Numbers
    ensures { said result ≡ refusal_of reason }
{
    match reason {
        Reason::BadLength => refusal(1, 0, 0),
        Reason::BadChecksum { block } => refusal(2, block, 0),
        Reason::BadBlock { block } => refusal(3, block, 0),
        Reason::BadRecord { offset } => refusal(4, offset, 0),
        Reason::BadConstructor { constructor } => refusal(5, 0, constructor),
        Reason::BadSignature { function } => refusal(5, 1, function),
        Reason::UnboundedArgument { function, argument } => refusal(6, function, argument),
        Reason::BadFlow(place) => at_place(7, place),
        Reason::BadTypes(place) => at_place(8, place),
        Reason::TooManyForms(place) => at_place(9, place),
        Reason::NotCovered(place) => at_place(10, place),
        Reason::NoEntry { entry } => refusal(11, entry, 0),
        Reason::ArgumentsTooLong => refusal(12, 65535, 0),
        Reason::BadArgument { offset } => refusal(12, offset, 0),
        Reason::OutputTooShort { needed } => refusal(13, needed, 0),
        Reason::BadPayload => refusal(18, 0, 0),
        Reason::BudgetSpent(place) => at_place(14, place),
        Reason::OutOfCells(place) => at_place(15, place),
        Reason::OutOfStack(place) => at_place(16, place),
        Reason::OutOfFrames(place) => at_place(17, place),
        Reason::BadTable => refusal(19, 0, 0),
        Reason::BadLine { line } => refusal(20, line, 0),
    }
}
