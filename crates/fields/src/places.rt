// Where the byte at an offset of the payload stands in the file: each block has four bytes of marks, then 504 of payload, then a sum.
ghost use Rattle.std.specs.Prelude.{◌≡◌, ◌-◌, ◌^◌, ◌%◌, ◌<◌};
ghost use Rattle.rules.specs.Container.{place_of};

// For the crates above: its place.
pub fn place_of(at: usize) -> usize
    requires { at < 2 ^ 63 }
    ensures { result ≡ place_of at }
{
    at + 4 + 8 * (at / 504)
}

// For the crates above: how many bytes of payload its block has from there on.
pub fn left_in_block(at: usize) -> usize
    ensures { result ≡ 504 - at % 504 }
{
    504 - at % 504
}
