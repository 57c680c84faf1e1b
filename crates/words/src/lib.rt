// An answer in words of 32 bits, and the words in bytes.
#![tactic(auto)]

ghost use Rattle.std.specs.Prelude.{◌≡◌, ◌+◌, ◌≤◌, ◌<◌, length, take, get_or};
ghost use Rattle.rules.specs.Answers.{told, told_run, check_words, length_words, run_words, words_into};
ghost use Rattle.rules.specs.Container.{bytes4};
ghost use Rattle.rules.specs.Memory.{overwritten};
ghost use Rattle.words.specs.Words.{RefusedWords};

use rules::answers::{Answer, Counts, Ending, Reason};

// A refusal: its number, its places, and the steps taken.
fn refused(reason: Reason, steps: usize) -> [usize; 5]
    ensures { RefusedWords reason steps result }
{
    let n = report::numbers_of(reason);
    [usize::from(n.number), n.first, n.second, steps, 0]
}

// For the crates above: check, in four words.
pub fn check_words(verdict: Result<Counts, Reason>) -> [usize; 5]
    ensures { (take 4 result ≡ check_words (told verdict)) × (get_or result 0 0 < 256) }
{
    match verdict {
        Ok(c) => [
            0,
            usize::from(c.types),
            usize::from(c.constructors),
            usize::from(c.functions),
            0,
        ],
        Err(reason) => refused(reason, 0),
    }
}

// For the crates above: pack and unpack, in four words.
pub fn length_words(length: Result<usize, Reason>) -> [usize; 5]
    ensures { (take 4 result ≡ length_words (told length)) × (get_or result 0 0 < 256) }
{
    match length {
        Ok(n) => [0, 0, 0, n, 0],
        Err(reason) => refused(reason, 0),
    }
}

// For the crates above: run, in five words.
pub fn run_words(answer: Answer) -> [usize; 5]
    ensures { (take 5 result ≡ run_words (told_run answer)) × (get_or result 0 0 < 256) }
{
    let steps = answer.steps as usize;
    match answer.ending {
        Ending::Result(n) => [0, 0, 0, steps, n],
        Ending::Aborted => [100, 0, 0, steps, 0],
        Ending::Refused(reason) => refused(reason, steps),
    }
}

// A word at a place of the buffer, the low byte first.
fn put_word(answer: &mut [u8], at: usize, x: usize)
    requires { at + 4 ≤ length answer.old }
    ensures { answer.new ≡ overwritten answer.old at (bytes4 x) }
{
    answer[at..at + 4].copy_from_slice(&x.to_le_bytes()[..4]);
}

// The first n words, where the buffer has room for all of them.
fn put_words(words: [usize; 5], n: usize, answer: &mut [u8])
    requires { n ≤ 5 }
    ensures { answer.new ≡ words_into (take n words) answer.old }
{
    if answer.len() < 4 * n {
        return;
    }
    for i in 0..n {
        put_word(answer, 4 * i, words[i]);
    }
}

// For the crates above: the first n words told; the answer is the first of them.
pub fn tell(words: [usize; 5], n: usize, answer: &mut [u8]) -> u32
    requires { (n ≤ 5) × (get_or words 0 0 < 256) }
    ensures { (result ≡ get_or words 0 0) × (answer.new ≡ words_into (take n words) answer.old) }
{
    put_words(words, n, answer);
    words[0] as u32
}
