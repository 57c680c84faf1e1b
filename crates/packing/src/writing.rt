// Writing a payload into blocks.
ghost use Rattle.std.specs.Prelude.{◌≡◌, ◌+◌, ◌*◌, ◌≤◌, ◌<◌, length};
ghost use Rattle.rules.specs.Container.{block, blocks_of};
ghost use Rattle.rules.specs.Memory.{front_written};

// Block k with its part of the payload. Only what is used is summed: the zeros behind it add nothing to the checksum.
fn write_block(part: &[u8], k: usize, out: &mut [u8])
    requires { (length part.now ≤ 504) × (k < 65536) × (length out.old ≡ 512) }
    ensures { out.new ≡ block k part.now }
{
    let used = part.len();
    out[0..2].copy_from_slice(&(k as u16).to_le_bytes());
    out[2..4].copy_from_slice(&(used as u16).to_le_bytes());
    out[4..4 + used].copy_from_slice(part);
    let sum = blocks::weighed(&out[..4 + used]);
    out[4 + used..508].fill(0);
    out[508..512].copy_from_slice(&sum.to_le_bytes());
}

// A payload in n blocks, one after the other. The last takes what is left.
pub fn write_blocks(payload: &[u8], n: usize, out: &mut [u8])
    requires { (504 * n < length payload.now + 504) × (length payload.now ≤ 504 * n) × (n ≤ 64) × (512 * n ≤ length out.old) }
    ensures { out.new ≡ front_written (blocks_of n 0 payload.now) out.old }
{
    for k in 0..n {
        let from = 504 * k;
        let to = (from + 504).min(payload.len());
        write_block(&payload[from..to], k, &mut out[512 * k..512 * k + 512]);
    }
}
