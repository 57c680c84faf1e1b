// How far the payload of lent blocks goes, whether the blocks are right or not.
ghost use Rattle.std.specs.Prelude.{◌≡◌, true, ◌+◌};
ghost use Rattle.standing.specs.Found.{extent, whole, Inside};

// How many there are by the blocks' own count.
fn extent(file: &[u8]) -> usize
    ensures { result ≡ extent file.now }
{
    if file.len() < 512 {
        return 0;
    }
    let last = file.len() / 512 - 1;
    let at = 512 * last + 2;
    let used = usize::from(blocks::join(file[at], file[at + 1]));
    504 * last + used.min(504)
}

// Whether a record of so many bytes is there whole.
pub fn is_there(file: &[u8], at: usize, size: usize) -> bool
    ensures there { result ≡ whole size file.now at }
    ensures inside { result ≡ true → Inside file.now (at + size) }
{
    let n = extent(file);
    size <= n && at <= n - size
}
