// Records by offset, as they stand in lent blocks, whether the blocks are right or not.
#![tactic(auto)]

ghost use Rattle.std.specs.Prelude.{◌≡◌};
ghost use Rattle.standing.specs.Found.{found_at};

use extent::is_there;
use fields::{left_in_block, place_of};

mod extent; // extent.rt: how far the payload of lent blocks goes

pub use fields::Record;

// The record at an offset, if it is there whole.
pub fn find<R: Record>(file: &[u8], at: usize) -> Option<R>
    ensures { result ≡ found_at R.SIZE R.record_at file.now at }
{
    if !is_there(file, at, R::SIZE) {
        return None;
    }
    Some(R::read(file, place_of(at), left_in_block(at)))
}
