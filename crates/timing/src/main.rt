// Does a job from standard input many times; then one line with the sum over all answers. Time is taken from outside.
// A job: ten numbers of four bytes, low byte first, then the program's bytes and the argument bytes.
// The numbers: mode (1 check, 2 run, 3 lines), repetitions, length of program, length of arguments, entry, budget, lengths of the lent
// cells (numbers), stack (numbers) and frames (numbers, three to a record), and the length of the output. For lines a text, a table,
// and the numbers of cons and nil stand in the places of the program, the arguments, the entry and the budget.
#![tactic(auto)]

use blocks::long_at;
use rules::answers::{Ending, Reason};
use std::io::Read;

// The number of a refusal.
fn refusal_number(reason: Reason) -> u64 {
    u64::from(report::numbers_of(reason).number)
}

// A number for an ending: 100 for a result, 101 where the program gave up, else the refusal's.
fn ending_number(ending: Ending) -> u64 {
    match ending {
        Ending::Result(_) => 100,
        Ending::Aborted => 101,
        Ending::Refused(reason) => refusal_number(reason),
    }
}

// Does a job so many times, and sums up its numbers.
fn repeat<F: FnMut() -> u64>(times: u32, mut job: F) -> u64
    requires { F.IsAlwaysCallable job }
{
    let mut sum: u64 = 0;
    for _ in 0..times {
        sum = sum.wrapping_add(job());
    }
    sum
}

// A number for each verdict: 100 where it is accepted, else the refusal's.
fn checks(file: &[u8], times: u32) -> u64 {
    repeat(
        times,
        || verifier::check(file).map_or_else(refusal_number, |_| 100),
    )
}

fn runs(header: &[u8; 40], file: &[u8], arguments: &[u8]) -> Option<u64> {
    let mut cells = [0u16; 327680];
    let mut stack = [0u16; 65535];
    let mut out = [0u8; 65536];
    let cells = cells.get_mut(..long_at(header, 24) as usize)?;
    let stack = stack.get_mut(..long_at(header, 28) as usize)?;
    let out = out.get_mut(..long_at(header, 36) as usize)?;
    let entry = long_at(header, 16);
    let budget = long_at(header, 20);
    let frames = long_at(header, 32) as usize / 3;
    let sum = repeat(long_at(header, 4), || {
        let answer = lending::run_here(file, entry, arguments, budget, cells, stack, frames, out);
        ending_number(answer.ending).wrapping_add(u64::from(answer.steps))
    });
    Some(sum)
}

// A number for each length: itself, or the refusal's. Cons and nil are the low bytes of their numbers.
fn surveys(header: &[u8; 40], text: &[u8], table: &[u8]) -> Option<u64> {
    let mut out = [0u8; 65536];
    let out = out.get_mut(..long_at(header, 36) as usize)?;
    let sum = repeat(long_at(header, 4), || {
        match lines::lines(text, table, header[16], header[20], out) {
            Ok(length) => length as u64,
            Err(reason) => refusal_number(reason),
        }
    });
    Some(sum)
}

fn sum_of(header: &[u8; 40], file: &[u8], arguments: &[u8]) -> Option<u64> {
    match long_at(header, 0) {
        1 => Some(checks(file, long_at(header, 4))),
        3 => surveys(header, file, arguments),
        _ => runs(header, file, arguments),
    }
}

// Bytes of standard input, as many as the buffer has. Where there are fewer, the rest of it stays as it is.
fn read_full(rt: &impl Input, buffer: &mut [u8]) {
    let _ = rt.reader().read_exact(buffer);
}

// Nothing where the job asks for more than there is room for. The longest texts and tables of the jobs are longer than programs and
// arguments can be.
fn do_job(rt: &impl Input) -> Option<u64> {
    let mut header = [0u8; 40];
    let mut file = [0u8; 131072];
    let mut arguments = [0u8; 70304];
    read_full(rt, &mut header);
    let file = file.get_mut(..long_at(&header, 8) as usize)?;
    let arguments = arguments.get_mut(..long_at(&header, 12) as usize)?;
    read_full(rt, file);
    read_full(rt, arguments);
    sum_of(&header, file, arguments)
}

fn main(rt: HostRuntime) {
    if let Some(sum) = do_job(&rt) {
        let _ = println!(rt; "{sum}");
    }
}
