// The splits of a path: what becomes of an alternative where a variable is taken apart. A split names its constructor; the weight is read
// from the constructor's record where it is used.
ghost use Rattle.std.specs.Prelude.{◌≡◌, take};
ghost use Rattle.rules.specs.Established.{Verified};
ghost use Rattle.rules.specs.Records.{program_in};
ghost use Rattle.sizing.specs.Put.{put};
ghost use Rattle.sizing.specs.Splits.{weight_in, split_a, carried, WeightThere, SplitAsks, Carrying};

use readers::{constructor, constructor_offset};
use rules::records::Alternative;

// A variable taken apart: its constructor's arguments are the variables first, first + 1, .. in number parts.
#[derive(Clone, Copy)]
pub struct Split {
    pub variable: u8,
    pub constructor: u8,
    pub first: u8,
    pub parts: u8,
}

// The splits of a path, oldest first.
#[derive(Clone, Copy)]
pub struct Splits {
    pub taken: usize,
    pub list: [Split; 16],
}

// The weight of a split's constructor.
fn weight_of(file: &[u8], p: Split) -> u32
    requires { Verified file.now × WeightThere file.now p }
    ensures { result ≡ weight_in (program_in file.now) p }
{
    let k = constructor(file, constructor_offset(usize::from(p.constructor)));
    u32::from(k.weight)
}

// An alternative after one split. Where it does not have the variable, it stays as it is.
pub fn add_split(file: &[u8], a: Alternative, p: Split) -> Alternative
    requires { Verified file.now × SplitAsks file.now a p }
    ensures { result ≡ put p.variable (split_a (program_in file.now) p) a }
{
    let v = usize::from(p.variable);
    let first = usize::from(p.first);
    let parts = usize::from(p.parts);
    let c = a.coefficients[v];
    let mut r = a;
    if c == 0 {
        return r;
    }
    let w = weight_of(file, p);
    r.coefficients[v] = 0;
    for j in 0..parts {
        r.coefficients[first + j] += c;
    }
    r.constant = a.constant + u32::from(c) * w;
    r
}

// An alternative after all splits.
pub fn carry(file: &[u8], a: Alternative, s: &Splits) -> Alternative
    requires { Verified file.now × Carrying file.now a s.now.taken s.now.list }
    ensures { result ≡ carried (program_in file.now) (take s.now.taken s.now.list) a }
{
    let mut r = a;
    for i in 0..s.taken {
        r = add_split(file, r, s.list[i]);
    }
    r
}
