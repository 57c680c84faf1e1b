// Where the records of a payload stand. Each function asks for numbers that are small enough to be added.
ghost use Rattle.std.specs.Prelude.{◌≡◌, ◌≤◌};
ghost use Rattle.rules.specs.Records.{constructor_offset, alternative_offset, instruction_offset};

// For the crates above: constructor c.
pub fn constructor_offset(c: usize) -> usize
    requires { c ≤ 1000000 }
    ensures { result ≡ constructor_offset c }
{
    4 + 8 * c
}

// For the crates above: alternative k of the function whose head stands at an offset; behind the last of them stands its code.
pub fn alternative_offset(at: usize, k: usize) -> usize
    requires { (at ≤ 1000000) × (k ≤ 1000000) }
    ensures { result ≡ alternative_offset at k }
{
    at + 10 + 6 * k
}

// For the crates above: instruction i, from 0, of code at an offset; behind the last of them the next function begins.
pub fn instruction_offset(base: usize, i: usize) -> usize
    requires { (base ≤ 1000000) × (i ≤ 1000000) }
    ensures { result ≡ instruction_offset base i }
{
    base + 4 * i
}
