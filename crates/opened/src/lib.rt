// The open program, which document 01 calls an open sheet: the lent blocks together with the counts of the header, and the records of
// their payload by offset. Each function over it is thin: it hands the slice and the offset on.
#![tactic(auto)]

ghost use Rattle.std.specs.Prelude.{◌≡◌};
ghost use Rattle.opened.specs.Opened.{Opens};
ghost use Rattle.standing.specs.Found.{found_at};

use rules::answers::Counts;
use standing::Record;

// The lent blocks, and how many types, constructors and functions there are: 0 of each where the check refuses the blocks.
#[derive(Clone, Copy)]
pub struct OpenProgram<'a> {
    pub blocks: &'a [u8],
    pub types: u8,
    pub constructors: u8,
    pub functions: u8,
}

// Any bytes are opened.
pub fn open<'a>(blocks: &'a [u8]) -> OpenProgram<'a>
    ensures { Opens blocks.entry result }
{
    let none = Counts {
        types: 0,
        constructors: 0,
        functions: 0,
    };
    let counts = verifier::check(blocks).unwrap_or(none);
    OpenProgram {
        blocks,
        types: counts.types,
        constructors: counts.constructors,
        functions: counts.functions,
    }
}

// The record at an offset, if it is there whole.
pub fn find<'a, R: Record>(p: OpenProgram<'a>, at: usize) -> Option<R>
    ensures { result ≡ found_at R.SIZE R.record_at p.entry.blocks.now at }
{
    standing::find(p.blocks, at)
}
