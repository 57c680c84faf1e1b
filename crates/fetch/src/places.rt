// Places in the file, and the offsets in the payload that they stand for: each block has four bytes of marks, then 504, then a sum.
ghost use Rattle.std.specs.Prelude.{◌≡◌, ◌+◌, ◌*◌, ◌-◌, ◌/◌, ◌≤◌, ◌<◌};
ghost use Rattle.fetch.specs.Places.{offset_at, Inside, Behind};

// The offset in the payload that a place in the file stands for.
pub fn offset_at(at: usize) -> usize
    requires { Inside at × (at ≤ 40000) }
    ensures { result ≡ offset_at at }
{
    at - 4 - 8 * (at / 512)
}

// For the crates above: the place n instructions behind another, most often in the same block.
pub fn place_behind(from: usize, n: usize) -> usize
    requires { Inside from × (from ≤ 33000) × (n ≤ 256) }
    ensures { Behind from n result × (result ≤ 40000) }
{
    let inside = from % 512 + 4 * n;
    if inside < 508 {
        return from + 4 * n;
    }
    from + 4 * n + 8 * ((inside - 4) / 504)
}

// For the crates above: the number of the instruction at a place, in the function whose first stands at another.
pub fn number_at(code: usize, at: usize) -> usize
    requires { Inside code × Inside at × (code ≤ 40000) × (at ≤ 40000) × (offset_at code ≤ offset_at at) }
    ensures { result ≡ (offset_at at - offset_at code) / 4 + 1 }
{
    (offset_at(at) - offset_at(code)) / 4 + 1
}
