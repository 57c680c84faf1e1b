// Writing the payload of verified blocks to an output.
ghost use Rattle.std.specs.Prelude.{◌≡◌, ◌≤◌, length};
ghost use Rattle.rules.specs.Answers.{told, length_of};
ghost use Rattle.rules.specs.Container.{payload, unpack as unpack_of};
ghost use Rattle.rules.specs.Memory.{front_written, unpack_leaves};
ghost use Rattle.rules.specs.Established.{Measured};

use rules::answers::Reason;

// The payload's n bytes to the output's front.
fn copy_payload(file: &[u8], n: usize, out: &mut [u8])
    requires { Measured file.now n × (n ≤ length out.old) }
    ensures { out.new ≡ front_written (payload file.now) out.old }
{
    for k in 0..n {
        out[k] = blocks::payload_byte(file, k);
    }
}

// The payload's n bytes, if the output has room for them.
pub fn unpack_verified(file: &[u8], n: usize, out: &mut [u8]) -> Result<usize, Reason>
    requires { Measured file.now n }
    ensures { (told result ≡ length_of (unpack_of file.now (length out.old)))
        × (out.new ≡ unpack_leaves file.now out.old) }
{
    if out.len() < n {
        return Err(Reason::OutputTooShort { needed: n });
    }
    copy_payload(file, n, out);
    Ok(n)
}
