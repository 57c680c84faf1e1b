// The answers, each without its line's end.
use crate::lent::Left;
use crate::{hex, lent};
use report::line::write_verdict;
use rules::answers::{Answer, Counts, Ending, Reason};

// What cannot be written is left out: whoever ends the line finds that out.
fn text(rt: &impl Print, bytes: &[u8]) {
    let _ = rt.write_all(bytes);
}

pub fn bad_command(rt: &impl Print) {
    text(rt, b"bad command");
}

// A call wrote where it must not, or left tables half cleared.
fn wrong(rt: &impl Print) {
    text(rt, b"tables wrong");
}

fn refused(rt: &impl Print, reason: Reason) {
    let told = report::numbers_of(reason);
    let _ = print!(rt; "refused {} {} {}", told.number, told.first, told.second);
}

pub fn checked(rt: &impl Print, verdict: Result<Counts, Reason>) {
    let mut line = [0u8; 72];
    let count = write_verdict(verdict, &mut line);
    if let Some((_, told)) = line[..count].split_last() {
        text(rt, told);
    }
}

// The first so many bytes of an output, where a call wrote no others.
fn written(out: &[u8], count: usize) -> Option<&[u8]> {
    let (written, rest) = out.split_at_checked(count)?;
    if lent::kept(rest) {
        Some(written)
    } else {
        None
    }
}

// The answer of pack, unpack or lines, with what it wrote to the output.
pub fn wrote(rt: &impl Print, name: &[u8], answer: Result<usize, Reason>, out: &[u8]) {
    let Some(bytes) = written(out, answer.unwrap_or(0)) else {
        return wrong(rt);
    };
    match answer {
        Ok(_) => {
            text(rt, name);
            hex::write(rt, bytes);
        }
        Err(reason) => refused(rt, reason),
    }
}

// Whether a run has begun that had no usable cells and no usable stack, in which nothing shows it. Before the start such a run is
// refused for its program, its entry or its arguments, for want of any frame, or for want of stack places for its arguments.
fn begun_unseen(ending: Ending, arguments: usize, frames: usize) -> bool {
    match ending {
        Ending::Result(_) | Ending::Aborted => true,
        Ending::Refused(Reason::BudgetSpent(_) | Reason::OutOfCells(_)) => true,
        Ending::Refused(Reason::OutOfStack(_)) => arguments == 0,
        Ending::Refused(Reason::OutOfFrames(_)) => 0 < frames,
        Ending::Refused(_) => false,
    }
}

// The answer of run on so many argument bytes and frames, with what it left in its tables and wrote to the output.
pub fn ran(
    rt: &impl Print,
    answer: Answer,
    left: Left,
    arguments: usize,
    frames: usize,
    out: &[u8],
) {
    let ending = answer.ending;
    let length = match ending {
        Ending::Result(n) => n,
        Ending::Aborted | Ending::Refused(_) => 0,
    };
    let Some(bytes) = written(out, length) else {
        return wrong(rt);
    };
    let begun = match left {
        Left::Either => begun_unseen(ending, arguments, frames),
        Left::Kept => false,
        Left::Zeroed => true,
        Left::Wrong => return wrong(rt),
    };
    match ending {
        Ending::Result(_) => {
            text(rt, b"figure ");
            hex::write(rt, bytes);
        }
        Ending::Aborted => text(rt, b"gaveup"),
        Ending::Refused(reason) => refused(rt, reason),
    }
    let _ = print!(rt; " {} {}", answer.steps, u8::from(begun));
}
