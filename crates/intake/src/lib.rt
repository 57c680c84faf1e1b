// The standard streams as the programs use them: one bytecode program read to its end, output written, and the stream that failed named.
#![tactic(auto)]

ghost use Rattle.std.specs.Prelude.{◌<◌, length, IfOk};
ghost use Rattle.io.specs.Counts.{IsPrefixLen as CountsFront};

use arrayvec::ArrayString;
use std::env::FillError;
use std::fmt::Write;
use std::io::Read;
use std::rt::Env;
use std::{fmt, io};

// A standard stream that failed, and why.
#[derive(Clone, Copy, Debug)]
pub enum Failure {
    Input(io::Error),
    Output(io::Error),
}

// The stream and the system's words, without the error's number that std writes behind them.
impl fmt::Display for Failure {
    fn fmt<W: Write>(&self, f: &mut fmt::Formatter<W>) -> fmt::Result {
        let (stream, error) = match *self {
            Failure::Input(error) => ("input", error),
            Failure::Output(error) => ("output", error),
        };
        let mut text = ArrayString::<160>::new();
        let _ = write!(text, "{error}");
        let reason = text.as_str();
        let words = reason
            .split_once(" (os error ")
            .map_or(reason, |(words, _)| words);
        write!(f, "standard {stream}: {words}")
    }
}

// Whether the program was started with words behind its name.
pub fn has_words(rt: &impl Env) -> bool {
    !matches!(rt.arg(1, &mut [0u8; 1]), Err(FillError::NotPresent))
}

// For the crates above: reads standard input to its end, one byte past the longest program at most, so that a longer one is noticed:
// the buffer has room for that byte. The answer is how many bytes stand at the buffer's front.
pub fn read_input(rt: &impl io::Input, buffer: &mut [u8]) -> Result<usize, Failure>
    requires { 32768 < length buffer.old }
    ensures { IfOk result (λ n. CountsFront n buffer.new) }
{
    // A read may be short, and std's read_exact would not say how many bytes came.
    let mut reader = rt.reader();
    let mut count = 0;
    while count < buffer.len() {
        match reader.read(&mut buffer[count..]).map_err(Failure::Input)? {
            0 => break,
            n => count += n,
        }
    }
    Ok(count)
}

// For the crates above: writes bytes to standard output.
pub fn write_output(rt: &impl Print, bytes: &[u8]) -> Result<(), Failure> {
    rt.write_all(bytes).map_err(Failure::Output)
}

// For the crates above: where a stream failed, standard error says which and why. The program ends as ever.
pub fn say_failure(rt: &impl Eprint, outcome: Result<(), Failure>) {
    if let Err(failure) = outcome {
        let _ = eprintln!(rt; "{failure}");
    }
}
