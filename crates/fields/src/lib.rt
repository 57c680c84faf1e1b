// The fields of a record, read where it stands in the blocks: from its place in the file on, of which the block has so many bytes left.
// What is behind the block's end stands eight bytes further, behind the block's sum and the marks of the next one. Each kind of record is
// said once, for the crates above: a caller that knows that a record ends in its block hands over the record's length, a constant, for
// what is left, and the compiler leaves the test of each byte out.
#![tactic(auto)]

mod bytes; // bytes.rt: the bytes and numbers of a record
mod kinds; // kinds.rt: each kind of record
mod places; // places.rt: where a payload byte stands in the file
mod record; // record.rt: what a kind of record is

pub use places::{left_in_block, place_of};
pub use record::Record;
