// Answers commands on standard input, one a line, with one line each. The words of commands and answers are the protocol's.
#![tactic(auto)]

mod commands; // commands.rt: one command
mod input; // input.rt: the lines of standard input
mod runs; // runs.rt: the command run

use input::Pending;
use intake::{Failure, say_failure};

// The loop has a count that no run uses up, since nothing says that the input ends.
fn answer_all(rt: &(impl Input + Print)) -> Result<(), Failure> {
    let mut pending = Pending::new();
    for _ in 0..u64::MAX {
        if !pending.turn(rt)? {
            break;
        }
    }
    Ok(())
}

fn main(rt: HostRuntime) {
    say_failure(&rt, answer_all(&rt));
}
