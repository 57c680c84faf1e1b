// The five commands: each reads its words, makes its call and writes one answer line.
use crate::runs;
use protocol::words::Words;
use protocol::{answers, lent};
use rules::answers::Reason;

// Makes a call that writes to an output of so many bytes, and answers with what it wrote.
fn lend_output<F: FnOnce(&mut [u8]) -> Result<usize, Reason>>(
    rt: &impl Print,
    name: &[u8],
    room: u32,
    call: F,
) -> Option<()>
    requires { F.IsAlwaysCallable call }
{
    let mut out = [lent::BYTE; 70000];
    let lent = out.get_mut(..room as usize)?;
    let answer = call(lent);
    answers::wrote(rt, name, answer, lent);
    Some(())
}

fn pack(rt: &impl Print, mut words: Words<'_>) -> Option<()> {
    let payload = words.bytes()?;
    let room = words.number()?;
    words.end()?;
    lend_output(rt, b"packed ", room, |out| packing::pack(payload, out))
}

fn unpack(rt: &impl Print, mut words: Words<'_>) -> Option<()> {
    let file = words.bytes()?;
    let room = words.number()?;
    words.end()?;
    lend_output(rt, b"unpacked ", room, |out| packing::unpack(file, out))
}

fn check(rt: &impl Print, mut words: Words<'_>) -> Option<()> {
    let file = words.bytes()?;
    words.end()?;
    answers::checked(rt, verifier::check(file));
    Some(())
}

fn lines(rt: &impl Print, mut words: Words<'_>) -> Option<()> {
    let text = words.bytes()?;
    let table = words.bytes()?;
    let cons = u8::try_from(words.number()?).ok()?;
    let nil = u8::try_from(words.number()?).ok()?;
    let room = words.number()?;
    words.end()?;
    lend_output(
        rt,
        b"lines ",
        room,
        |out| lines::lines(text, table, cons, nil, out),
    )
}

// Nothing, and no answer, where a line is no command.
fn answered(rt: &impl Print, mut words: Words<'_>) -> Option<()> {
    let name: &[u8] = words.word()?;
    match name {
        b"pack" => pack(rt, words),
        b"unpack" => unpack(rt, words),
        b"check" => check(rt, words),
        b"run" => runs::run(rt, words),
        b"lines" => lines(rt, words),
        _ => None,
    }
}

// One command, one answer. The line's bytes are used up.
pub fn answer(rt: &impl Print, line: &mut [u8]) {
    if answered(rt, Words::of(line)).is_none() {
        answers::bad_command(rt);
    }
}
