// The records of a payload: where each stands, and its fields, read from the lent blocks. Most records end in the block that they begin in,
// and each reader asks for that once: one division finds the place of the record, and its bytes are read there. The others go on behind
// the block's end.
#![tactic(auto)]

ghost use Rattle.std.specs.Prelude.{◌≡◌, ◌+◌, ◌≤◌, length};
ghost use Rattle.rules.specs.Container.{payload};
ghost use Rattle.rules.specs.Records.{declaration_at, constructor_at, head_at, alternative_at, instruction_at, instruction_of};
ghost use Rattle.rules.specs.Records.{constructor_offset};
ghost use Rattle.rules.specs.Established.{Verified};

use fields::{left_in_block, place_of};
use ranges::operation_of;
use rules::records::{AlternativeRecord, ConstructorRecord, Declaration, HeadRecord, Instruction};

mod offsets; // offsets.rt: where each record stands in the payload

pub use fields::Record;
pub use offsets::{alternative_offset, constructor_offset, instruction_offset};

// For the crates above: the record at an offset.
pub fn read<R: Record>(file: &[u8], at: usize) -> R
    requires { Verified file.now × (at + R.SIZE ≤ length (payload file.now)) }
    ensures { result ≡ R.record_at (payload file.now) at }
{
    let place = place_of(at);
    let left = left_in_block(at);
    if left >= R::SIZE {
        return R::read(file, place, R::SIZE);
    }
    R::read(file, place, left)
}

// For the crates above: the declaration of constructor c. The first 62 end in the first block, where the place follows from the number: an
// argument check reads one for each byte.
pub fn constructor_declaration(file: &[u8], c: usize) -> Declaration
    requires { Verified file.now × (constructor_offset c + 6 ≤ length (payload file.now)) }
    ensures { result ≡ declaration_at (payload file.now) (constructor_offset c) }
{
    if c < 62 {
        return Declaration::read(file, 8 + 8 * c, Declaration::SIZE);
    }
    declaration(file, constructor_offset(c))
}

// For the crates above: what a constructor and a function head both begin with.
pub fn declaration(file: &[u8], at: usize) -> Declaration
    requires { Verified file.now × (at + 6 ≤ length (payload file.now)) }
    ensures { result ≡ declaration_at (payload file.now) at }
{
    read(file, at)
}

// For the crates above: the constructor at an offset.
pub fn constructor(file: &[u8], at: usize) -> ConstructorRecord
    requires { Verified file.now × (at + 8 ≤ length (payload file.now)) }
    ensures { result ≡ constructor_at (payload file.now) at }
{
    read(file, at)
}

// For the crates above: the function head at an offset.
pub fn head(file: &[u8], at: usize) -> HeadRecord
    requires { Verified file.now × (at + 10 ≤ length (payload file.now)) }
    ensures { result ≡ head_at (payload file.now) at }
{
    read(file, at)
}

// For the crates above: the alternative at an offset.
pub fn alternative(file: &[u8], at: usize) -> AlternativeRecord
    requires { Verified file.now × (at + 6 ≤ length (payload file.now)) }
    ensures { result ≡ alternative_at (payload file.now) at }
{
    read(file, at)
}

// For the crates above: the instruction at an offset, where its record is right.
#[tactic(auto, unfolding(rules::specs::Records::instruction_of))]
pub fn instruction(file: &[u8], at: usize) -> Instruction
    requires { Verified file.now × (at + 4 ≤ length (payload file.now)) }
    ensures { result ≡ instruction_of (instruction_at (payload file.now) at) }
{
    match operation_of(read(file, at)) {
        Some(instruction) => instruction,
        None => Instruction::Stop,
    }
}
