// The instructions of a function, one a line, each with the stack on arrival where that is known.
use crate::marks::{flow_passed, marks_instruction};
use crate::states::Names;
use crate::text::{Stop, end, end_cut, write_line};
use crate::{states, text};
use arrayvec::ArrayString;
use intake::Failure;
use operands::{Stack, TypedStep};
use ranges::operation_of;
use rules::answers::Reason;
use rules::records::{HeadRecord, Instruction, InstructionRecord};
use standing::find;
use std::fmt;
use std::fmt::Write;

#[derive(Clone, Copy)]
struct Operation(Instruction);

impl fmt::Display for Operation {
    fn fmt<W: Write>(&self, f: &mut fmt::Formatter<W>) -> fmt::Result {
        match self.0 {
            Instruction::Load(a) => write!(f, "load {a}"),
            Instruction::Build(c) => write!(f, "build {c}"),
            Instruction::Call(g) => write!(f, "call {g}"),
            Instruction::Branch(c, b) => write!(f, "branch {c} else {b}"),
            Instruction::Return => write!(f, "return"),
            Instruction::Stop => write!(f, "stop"),
        }
    }
}

// The height of a stack and the types on it, the lowest first.
#[derive(Clone, Copy)]
struct Arrival(Stack);

impl fmt::Display for Arrival {
    fn fmt<W: Write>(&self, f: &mut fmt::Formatter<W>) -> fmt::Result {
        let Arrival(stack) = *self;
        write!(f, "height {}", stack.height)?;
        for (k, number) in stack.types.iter().take(stack.height).enumerate() {
            let before = if k == 0 { ": " } else { " " };
            write!(f, "{before}{number}")?;
        }
        Ok(())
    }
}

// An instruction, and what arrives there, if anything does.
fn write_instruction(
    rt: &impl Print,
    is_marked: bool,
    i: usize,
    ins: Instruction,
    here: Option<Stack>,
) -> Result<(), Failure> {
    let mark = text::mark(is_marked);
    let operation = Operation(ins);
    let Some(stack) = here else {
        return write_line(rt, format_args!("{mark}{i:>4}  {operation}"));
    };
    // The columns of what arrives begin behind the longest operation.
    let mut columns = ArrayString::<21>::new();
    let _ = write!(columns, "{operation}");
    let arrival = Arrival(stack);
    write_line(rt, format_args!("{mark}{i:>4}  {columns:<21}{arrival}"))
}

// Instruction i, whose record stands at an offset, with what arrives there. One that is cut short or has a field out of its range ends
// the listing.
fn list_instruction(
    rt: &impl Print,
    file: &[u8],
    at: usize,
    is_marked: bool,
    i: usize,
    here: Option<Stack>,
) -> Result<Instruction, Stop> {
    let Some(r) = find::<InstructionRecord>(file, at) else {
        return end_cut(rt, "an instruction", at);
    };
    let Some(ins) = operation_of(r) else {
        return end(
            rt,
            format_args!("> {i:>4}  operation {}, a {}, b {}", r.operation, r.a, r.b),
        );
    };
    write_instruction(rt, is_marked, i, ins, here)?;
    Ok(ins)
}

// Function g with its code from an offset on. The answer is the offset behind it.
pub fn list_code(
    rt: &impl Print,
    file: &[u8],
    refusal: Option<Reason>,
    names: &Names,
    g: usize,
    head: HeadRecord,
    from: usize,
) -> Result<usize, Stop> {
    let d = head.declaration;
    // What arrives at each instruction, from place 1 on.
    let mut waiting: [Option<Stack>; 257] = [None; 257];
    waiting[1] = if flow_passed(refusal) {
        states::start(d)
    } else {
        None
    };
    let mut at = from;
    for i in 1..usize::from(head.instructions).min(256) + 1 {
        let here = waiting[i];
        let is_marked = marks_instruction(refusal, g, i);
        let ins = list_instruction(rt, file, at, is_marked, i, here)?;
        match here.and_then(|stack| states::leave(file, names, d.result, i, ins, stack)) {
            Some(TypedStep::Next(next)) => waiting[i + 1] = Some(next),
            Some(TypedStep::Both { next, to }) => {
                waiting[to] = here;
                waiting[i + 1] = Some(next);
            }
            _ => {}
        }
        at = at.saturating_add(4);
    }
    Ok(at)
}
