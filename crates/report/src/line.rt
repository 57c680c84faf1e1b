// The line that tells a verdict, in a buffer of the longest line's length: 8 letters, three times a space and 20 digits, the line's end.
ghost use Rattle.std.specs.Prelude.{◌≡◌, ◌+◌, ◌≤◌, length};
ghost use Rattle.io.specs.Counts.{IsPrefixLen as CountsFront};
ghost use Rattle.rules.specs.Memory.{front_written, overwritten};
ghost use Rattle.rules.specs.Answers.{told};
ghost use Rattle.report.specs.Line.{spaced, verdict_line};
ghost use Rattle.report.specs.Line.{line as line_of};

use crate::numbers_of;
use rules::answers::{Counts, Reason};

// Put bytes into a line from a place on. The answer is the place behind them.
fn put(line: &mut [u8], at: usize, bytes: &[u8]) -> usize
    requires { at + length bytes.now ≤ length line.old }
    ensures value { result ≡ at + length bytes.now }
    ensures line_after { line.new ≡ overwritten line.old at bytes.now }
{
    let behind = at + bytes.len();
    line[at..behind].copy_from_slice(bytes);
    behind
}

// Put a space and a number.
fn put_number(line: &mut [u8], at: usize, n: u64) -> usize
    requires { at + 21 ≤ length line.old }
    ensures value { (result ≡ at + length (spaced n)) × (result ≤ at + 21) }
    ensures line_after { line.new ≡ overwritten line.old at (spaced n) }
{
    let mut digits = [0u8; 20];
    let count = io::decimal(n, &mut digits);
    let behind = put(line, at, b" ");
    put(line, behind, &digits[..count])
}

// A word of at most 8 letters with three numbers, and the line's end.
fn put_line(line: &mut [u8], word: &[u8], first: u64, second: u64, third: u64) -> usize
    requires { (length word.now ≤ 8) × (72 ≤ length line.old) }
    ensures value { result ≡ length (line_of word.now first second third) }
    ensures line_after { line.new ≡ front_written (line_of word.now first second third) line.old }
{
    let after_word = put(line, 0, word);
    let after_first = put_number(line, after_word, first);
    let after_second = put_number(line, after_first, second);
    let after_third = put_number(line, after_second, third);
    put(line, after_third, b"\n")
}

// The line of a verdict, at the buffer's front. The answer is its length.
pub fn write_verdict(verdict: Result<Counts, Reason>, line: &mut [u8; 72]) -> usize
    ensures counts_front { CountsFront result line.new }
    ensures value { result ≡ length (verdict_line (told verdict)) }
    ensures line_after { line.new ≡ front_written (verdict_line (told verdict)) line.old }
{
    match verdict {
        Ok(counts) => put_line(
            line,
            b"accepted",
            u64::from(counts.types),
            u64::from(counts.constructors),
            u64::from(counts.functions),
        ),
        Err(reason) => {
            let it = numbers_of(reason);
            put_line(
                line,
                b"refused",
                u64::from(it.number),
                it.first as u64,
                it.second as u64,
            )
        }
    }
}
