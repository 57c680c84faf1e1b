// The instruction at a place of the file: its four bytes as one number, and the place of the next.
ghost use Rattle.std.specs.Prelude.{◌+◌, ◌≤◌, length};
ghost use Rattle.rules.specs.Container.{payload};
ghost use Rattle.rules.specs.Established.{Verified};
ghost use Rattle.fetch.specs.Places.{offset_at, Inside, Behind};
ghost use Rattle.fetch.specs.Words.{WordThere};

use crate::places::offset_at;
use blocks::payload_byte;

// An instruction's record as a number, and where the next one stands.
#[derive(Clone, Copy)]
pub struct Fetched {
    pub word: u32,
    pub next: usize,
}

// The four bytes of a record that goes on in the next block: few do, and kept out of the way of the others they cost the run nothing.
#[cold]
#[inline(never)]
fn apart(file: &[u8], k: usize) -> u32
    requires { Verified file.now × (k + 4 ≤ length (payload file.now)) }
    ensures { WordThere (payload file.now) k result }
{
    u32::from_le_bytes([
        payload_byte(file, k),
        payload_byte(file, k + 1),
        payload_byte(file, k + 2),
        payload_byte(file, k + 3),
    ])
}

// For the crates above: the instruction at a place. Past place 504 of a block its bytes are read one by one.
pub fn fetch(file: &[u8], at: usize) -> Fetched
    requires { Verified file.now × Inside at × (offset_at at + 4 ≤ length (payload file.now)) }
    ensures { WordThere (payload file.now) (offset_at at) result.word × Behind at 1 result.next × (result.next ≤ 40000) }
{
    if at % 512 > 504 {
        return Fetched {
            word: apart(file, offset_at(at)),
            next: at + 12,
        };
    }
    Fetched {
        word: u32::from_le_bytes([file[at], file[at + 1], file[at + 2], file[at + 3]]),
        next: at + 4,
    }
}
