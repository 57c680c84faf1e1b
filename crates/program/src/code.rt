// Where a function's code stands in the payload.
ghost use Rattle.std.specs.Prelude.{◌≡◌, ◌+◌};
ghost use Rattle.rules.specs.Base.{word_at};
ghost use Rattle.rules.specs.Container.{payload};
ghost use Rattle.rules.specs.Records.{code_offset};
ghost use Rattle.rules.specs.Established.{Verified};
ghost use Rattle.rules.specs.There.{FunctionThere};

use readers::{alternative_offset, head};

// The offset of the first instruction, and the number of the last.
#[derive(Clone, Copy)]
pub struct Code {
    pub base: usize,
    pub last: usize,
}

// For the crates above: the code of the function whose head stands at an offset.
pub fn code_at(file: &[u8], at: usize) -> Code
    requires { Verified file.now × FunctionThere (payload file.now) at }
    ensures { (result.base ≡ code_offset (payload file.now) at)
        × (result.last ≡ word_at (payload file.now) (at + 8)) }
{
    let h = head(file, at);
    Code {
        base: alternative_offset(at, usize::from(h.alternatives)),
        last: usize::from(h.instructions),
    }
}
