// Pack a payload into blocks, and unpack it again.
#![tactic(auto)]

ghost use Rattle.std.specs.Prelude.{◌≡◌, length};
ghost use Rattle.rules.specs.Answers.{told, length_of};
ghost use Rattle.rules.specs.Container.{pack as pack_of, unpack as unpack_of};
ghost use Rattle.rules.specs.Memory.{pack_leaves, unpack_leaves};

use rules::answers::Reason;

mod unpacking; // unpacking.rt: writing a payload
mod writing; // writing.rt: writing blocks

// A payload packed into blocks at the output's front.
pub fn pack(payload: &[u8], out: &mut [u8]) -> Result<usize, Reason>
    ensures { (told result ≡ length_of (pack_of payload.now (length out.old)))
        × (out.new ≡ pack_leaves payload.now out.old) }
{
    let n = payload.len();
    if n == 0 || 32256 < n {
        return Err(Reason::BadPayload);
    }
    let blocks = n.div_ceil(504);
    let needed = 512 * blocks;
    if out.len() < needed {
        return Err(Reason::OutputTooShort { needed });
    }
    writing::write_blocks(payload, blocks, out);
    Ok(needed)
}

// The payload of a file's blocks at the output's front.
pub fn unpack(file: &[u8], out: &mut [u8]) -> Result<usize, Reason>
    ensures { (told result ≡ length_of (unpack_of file.now (length out.old)))
        × (out.new ≡ unpack_leaves file.now out.old) }
{
    let n = blocks::verify(file)?;
    unpacking::unpack_verified(file, n, out)
}
