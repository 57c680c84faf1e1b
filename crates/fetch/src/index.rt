// The index of a program: where each function's arity and code stand in the file, found once. It has places, and no byte of the file.
ghost use Rattle.std.specs.Prelude.{◌≡◌, ◌<◌};
ghost use Rattle.rules.specs.Established.{LaidOut};
ghost use Rattle.fetch.specs.Indexed.{Indexed, arity_at, code_at};

use fields::place_of;
use program::Layout;
use readers::{alternative_offset, head};

// By a function's number: the place of its arity, and that of its first instruction.
#[derive(Clone, Copy)]
pub struct Index {
    pub arities: [u32; 32],
    pub codes: [u32; 32],
}

// For the crates above: the index of a parsed file.
pub fn index_of(file: &[u8], layout: &Layout) -> Index
    requires { LaidOut file.now layout.now.header layout.now.heads }
    ensures { Indexed file.now result }
{
    let mut index = Index {
        arities: [0; 32],
        codes: [0; 32],
    };
    for f in 0..usize::from(layout.header.functions) {
        let at = layout.heads[f];
        let alternatives = usize::from(head(file, at).alternatives);
        index.arities[f] = place_of(at + 1) as u32;
        index.codes[f] = place_of(alternative_offset(at, alternatives)) as u32;
    }
    index
}

// The place of a function's arity.
pub fn arity_at(index: &Index, f: usize) -> usize
    requires { f < 32 }
    ensures { result ≡ arity_at index.now f }
{
    index.arities[f] as usize
}

// For the crates above: the place of its first instruction.
pub fn code_at(index: &Index, f: usize) -> usize
    requires { f < 32 }
    ensures { result ≡ code_at index.now f }
{
    index.codes[f] as usize
}
