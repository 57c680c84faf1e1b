// Verifying blocks: the checksum and the fields of one block, all blocks, the length of their payload.
ghost use Rattle.std.specs.Prelude.{◌≡◌, ◌≤◌, length, take, drop};
ghost use Rattle.rules.specs.Answers.{told};
ghost use Rattle.rules.specs.Base.{passed, all, is_zero};
ghost use Rattle.rules.specs.Container.{weighed, checksum, used_right, block_right, verify_block, verify};
ghost use Rattle.rules.specs.Established.{Measured};

use super::reading::{long_at, word_at};
use rules::answers::Reason;

// For the crates above, too: what the bytes at a block's front add to its checksum.
pub fn weighed(b: &[u8]) -> u32
    requires { length b.now ≤ 508 }
    ensures { result ≡ weighed 1 b.now }
{
    let mut sum = 0;
    for i in 0..b.len() {
        sum += u32::from(b[i]) * (i as u32 + 1);
    }
    sum
}

// For the crates above, too: the checksum of a block.
#[tactic(auto, unfolding(rules::specs::Container::checksum))]
pub fn checksum(b: &[u8]) -> u32
    requires { 508 ≤ length b.now }
    ensures { result ≡ checksum b.now }
{
    weighed(&b[..508])
}

// Whether a block's used count is right.
fn used_right(last: bool, used: usize) -> bool
    ensures { result ≡ used_right last used }
{
    if last {
        return (1 <= used) & (used <= 504);
    }
    used == 504
}

// Whether all bytes from a place up to another are zero.
fn zero_between(b: &[u8], from: usize, to: usize) -> bool
    requires { (from ≤ to) × (to ≤ length b.now) }
    ensures { result ≡ all is_zero (drop from (take to b.now)) }
{
    b[from..to].iter().all(|x| *x == 0)
}

// Whether block k has its number, a right used count, and zeros behind what is used.
fn block_right(b: &[u8], last: bool, k: usize) -> bool
    requires { length b.now ≡ 512 }
    ensures { result ≡ block_right last k b.now }
{
    let number = word_at(b, 0) as usize;
    if number != k {
        return false;
    }
    let used = word_at(b, 2) as usize;
    if !used_right(last, used) {
        return false;
    }
    zero_between(b, 4 + used, 508)
}

// One block, numbered k.
fn verify_block(b: &[u8], last: bool, k: usize) -> Result<(), Reason>
    requires { length b.now ≡ 512 }
    ensures { told result ≡ verify_block last k b.now }
{
    if long_at(b, 508) != checksum(b) {
        return Err(Reason::BadChecksum { block: k });
    }
    if !block_right(b, last, k) {
        return Err(Reason::BadBlock { block: k });
    }
    Ok(())
}

// All blocks, one after the other.
pub fn verify_blocks(file: &[u8]) -> Result<(), Reason>
    ensures { told result ≡ verify file.now }
{
    let len = file.len();
    if len == 0 || 32768 < len || len % 512 != 0 {
        return Err(Reason::BadLength);
    }
    let n = len / 512;
    for k in 0..n {
        let at = 512 * k;
        verify_block(&file[at..at + 512], k + 1 == n, k)?;
    }
    Ok(())
}

// The length of the payload of verified blocks: every block but the last is full.
pub fn payload_length(file: &[u8]) -> usize
    requires { verify file.now ≡ passed }
    ensures { Measured file.now result }
{
    let last = file.len() / 512 - 1;
    504 * last + (word_at(file, 512 * last + 2) as usize)
}
