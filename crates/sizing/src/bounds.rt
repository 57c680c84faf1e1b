// Size bounds where they stand: a row is read from the blocks at each use.
ghost use Rattle.std.specs.Prelude.{◌≡◌};
ghost use Rattle.rules.specs.Container.{payload};
ghost use Rattle.rules.specs.Established.{Verified};
ghost use Rattle.sizing.specs.Bounds.{rows_in, row_in, RowThere};

use readers::{alternative, alternative_offset};
use rules::records::AlternativeRecord;

// A size bound: that of a build, with its weight, or the rows of the function whose head stands at an offset, with their number.
#[derive(Clone, Copy)]
pub enum Bound {
    Built { weight: u8 },
    Declared { head: usize, count: usize },
}

// How many rows a bound has.
pub fn rows(bound: Bound) -> usize
    ensures { result ≡ rows_in bound }
{
    match bound {
        Bound::Built { .. } => 1,
        Bound::Declared { count, .. } => count,
    }
}

// Row k. "A build is the single alternative of coefficients 1 and its weight".
pub fn row_of(file: &[u8], bound: Bound, k: usize) -> AlternativeRecord
    requires { Verified file.now × RowThere (payload file.now) bound k }
    ensures { result ≡ row_in (payload file.now) bound k }
{
    match bound {
        Bound::Built { weight } => AlternativeRecord {
            coefficients: [1u8; 4],
            constant: u16::from(weight),
        },
        Bound::Declared { head, .. } => alternative(file, alternative_offset(head, k)),
    }
}
