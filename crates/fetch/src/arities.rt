// Arities, read where they stand.
ghost use Rattle.std.specs.Prelude.{◌≡◌, ◌<◌};
ghost use Rattle.rules.specs.Base.{byte_at};
ghost use Rattle.rules.specs.Container.{payload};
ghost use Rattle.rules.specs.Established.{Parsed};
ghost use Rattle.fetch.specs.Indexed.{Indexed, constructor_arity, function_arity};

use crate::index::{Index, arity_at};

// For the crates above: the arity of a constructor, by its number. The first block has all but that of the last of 64, which stands eight
// places further, in the second.
pub fn constructor_arity(file: &[u8], c: usize) -> usize
    requires { Parsed file.now × (c < byte_at (payload file.now) 2) }
    ensures { result ≡ constructor_arity file.now c }
{
    let at = 9 + 8 * (c + (c + 1) / 64);
    usize::from(file[at])
}

// For the crates above: the arity of a function.
pub fn function_arity(file: &[u8], index: &Index, f: usize) -> usize
    requires { Indexed file.now index.now × (f < byte_at (payload file.now) 3) }
    ensures { result ≡ function_arity file.now f }
{
    usize::from(file[arity_at(index, f)])
}
