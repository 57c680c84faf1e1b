// Why something is refused, and what check and run answer. Where there is nothing more to say than an answer or the reason of a refusal,
// functions return a Result. The definition `refusal_of` gives each reason's number and places, those of documents 01 and 02.

// An instruction of a function.
#[derive(Clone, Copy)]
pub struct Place {
    pub function: usize,
    pub instruction: usize,
}

// Why a program, a call, a payload or a survey is refused.
#[derive(Clone, Copy)]
pub enum Reason {
    // A damaged file.
    BadLength,
    BadChecksum { block: usize },
    BadBlock { block: usize },
    // The program's author.
    BadRecord { offset: usize },
    BadConstructor { constructor: usize },
    BadSignature { function: usize },
    UnboundedArgument { function: usize, argument: usize },
    BadFlow(Place),
    BadTypes(Place),
    TooManyForms(Place),
    NotCovered(Place),
    // The call.
    NoEntry { entry: usize },
    ArgumentsTooLong,
    BadArgument { offset: usize },
    OutputTooShort { needed: usize },
    BadPayload,
    // The tables lent.
    BudgetSpent(Place),
    OutOfCells(Place),
    OutOfStack(Place),
    OutOfFrames(Place),
    // The survey.
    BadTable,
    BadLine { line: usize },
}

// How many types, constructors and functions an accepted program has.
#[derive(Clone, Copy)]
pub struct Counts {
    pub types: u8,
    pub constructors: u8,
    pub functions: u8,
}

// How a run ends: with a result of so many bytes, by the program's own stop, or refused.
#[derive(Clone, Copy)]
pub enum Ending {
    Result(usize),
    Aborted,
    Refused(Reason),
}

// The answer of run.
#[derive(Clone, Copy)]
pub struct Answer {
    pub ending: Ending,
    pub steps: u32,
}
