// Reads a program on standard input and writes one line: accepted with three counts, or refused with the number and the places.
// Where the input cannot be read or the line cannot be written, the reason goes to standard error instead.
#![tactic(auto)]

ghost use Rattle.std.specs.Prelude.{◌≡◌, length};
ghost use Rattle.io.specs.Counts.{IsPrefixLen as CountsFront};
ghost use Rattle.rules.specs.Check.{verdict_of};
ghost use Rattle.rules.specs.Memory.{front_written};
ghost use Rattle.report.specs.Line.{verdict_line};

use intake::{Failure, has_words, read_input, say_failure, write_output};
use report::line::write_verdict;

// The line of the verdict on a program, at the front of a buffer. The answer is its length.
fn tell(file: &[u8], line: &mut [u8; 72]) -> usize
    ensures counts_front { CountsFront result line.new }
    ensures value { result ≡ length (verdict_line (verdict_of file.now)) }
    ensures line_after { line.new ≡ front_written (verdict_line (verdict_of file.now)) line.old }
{
    write_verdict(verifier::check(file), line)
}

fn judge(rt: &(impl Input + Print)) -> Result<(), Failure> {
    let mut buffer = [0u8; 32769];
    let read = read_input(rt, &mut buffer)?;
    let mut line = [0u8; 72];
    let count = tell(&buffer[..read], &mut line);
    write_output(rt, &line[..count])
}

// It takes no words: whoever names a file would wait for standard input.
fn main(rt: HostRuntime) {
    if has_words(&rt) {
        let _ = eprintln!(rt; "usage: verdict <FILE");
        return;
    }
    say_failure(&rt, judge(&rt));
}
