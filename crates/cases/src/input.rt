// The lines of standard input, in a buffer that holds the bytes that are not answered yet.
ghost use Rattle.std.specs.Prelude.{◌≤◌};

use crate::commands;
use intake::{Failure, write_output};
use protocol::answers;
use std::io::Read;

// A line has up to 140,000 characters and its end.
const ROOM: usize = 140001;

// The bytes from `from` up to `to` are not answered yet, and no line ends before `seen`. Of a line that is too long for the
// buffer, `cut`, only the last bytes are there.
#[derive(Drop)]
pub struct Pending {
    buffer: [u8; ROOM],
    from: usize,
    seen: usize,
    to: usize,
    cut: bool,
    ghost started: { from ≤ seen },
    ghost passed: { seen ≤ to },
    ghost inside: { to ≤ 140001 },
}

fn answer(rt: &impl Print, line: &mut [u8], cut: bool) -> Result<(), Failure> {
    if cut {
        answers::bad_command(rt);
    } else {
        commands::answer(rt, line);
    }
    write_output(rt, b"\n")
}

impl Pending {
    pub fn new() -> Self {
        Pending {
            buffer: [0u8; ROOM],
            from: 0,
            seen: 0,
            to: 0,
            cut: false,
        }
    }

    // Moves the bytes that are not answered yet to the buffer's front. A line that fills the buffer is cut.
    fn make_room(&mut self) {
        if 0 < self.from {
            self.buffer.copy_within(self.from..self.to, 0);
            self.to -= self.from;
            self.from = 0;
        } else if self.to == ROOM {
            self.to = 0;
            self.cut = true;
        }
        self.seen = self.to;
    }

    // One turn: answer a line that is there whole, or read more. The answer is whether another turn is to follow.
    pub fn turn(&mut self, rt: &(impl Input + Print)) -> Result<bool, Failure> {
        let unseen = &self.buffer[self.seen..self.to];
        if let Some(length) = unseen.iter().position(|b| *b == b'\n') {
            let end = self.seen + length;
            answer(rt, &mut self.buffer[self.from..end], self.cut)?;
            self.from = end + 1;
            self.seen = end + 1;
            self.cut = false;
            return Ok(true);
        }
        self.make_room();
        let count = rt.reader().read(&mut self.buffer[self.to..]).unwrap_or(0);
        // A read that fails ends the input too. A last line may have no line's end.
        if count == 0 && (self.from < self.to || self.cut) {
            answer(rt, &mut self.buffer[self.from..self.to], self.cut)?;
        }
        self.to += count;
        Ok(0 < count)
    }
}
