// A path before its first build or call: a stack of variables, and the splits made so far.
ghost use Rattle.std.specs.Prelude.{◌≡◌, [], ◌∷◌, ◌++◌, ◌+◌, ◌-◌, ◌≤◌, ◌<◌, length, take, get_or};
ghost use Rattle.sizing.specs.States.{stack_in, splits_in, split_of, SameSplits, SplitMore, up_from};
ghost use Rattle.sizing.specs.Steps.{BranchAsks, Branching};

use crate::splits::{Split, Splits};

// What arrives at an instruction before the first build or call: the stack's variables, how many there are on the path, and its splits.
#[derive(Clone, Copy)]
pub struct Saved {
    pub height: usize,
    pub count: usize,
    pub stack: [u8; 16],
    pub splits: Splits,
}

// What leaves a branch: a state for the next instruction and one for the else target, where they are visited.
#[derive(Clone, Copy)]
pub struct Branched {
    pub next: Option<Saved>,
    pub other: Option<Saved>,
}

// The split of variable v, where it is taken apart.
pub fn find_split(st: &Saved, v: u8) -> Option<Split>
    requires { (st.now.splits.taken ≤ 16) × (length st.now.splits.list ≡ 16) }
    ensures { result ≡ split_of v (splits_in st.now) }
{
    st.splits.list[..st.splits.taken]
        .iter()
        .find(|p| p.variable == v)
        .copied()
}

// Slot k, from 0, on top.
pub fn load_variable(st: &Saved, k: usize) -> Saved
    requires { (st.now.height < 16) × (k < st.now.height) × (length st.now.stack ≡ 16) }
    ensures { SameSplits st.now result × (result.height ≡ st.now.height + 1)
        × (stack_in result ≡ stack_in st.now ++ (get_or (stack_in st.now) k 0 ∷ [])) }
{
    let mut r = *st;
    r.stack[st.height] = st.stack[k];
    r.height = st.height + 1;
    r
}

// The variables first, first + 1, .. in number parts, in place of the top.
pub fn push_parts(st: &Saved, first: u8, parts: u8) -> Saved
    requires { (0 < st.now.height) × (st.now.height + parts ≤ 17) × (first + parts ≤ 16) × (length st.now.stack ≡ 16) }
    ensures { SameSplits st.now result × (result.height ≡ st.now.height - 1 + parts)
        × (stack_in result ≡ take (st.now.height - 1) st.now.stack ++ up_from first parts) }
{
    let base = st.height - 1;
    let mut r = *st;
    for i in 0..parts {
        r.stack[base + usize::from(i)] = first + i;
    }
    r.height = base + usize::from(parts);
    r
}

// A split more.
pub fn add_taken(st: &Saved, p: Split) -> Saved
    requires { (st.now.splits.taken < 16) × (length st.now.splits.list ≡ 16) × (st.now.count + p.parts ≤ 16) }
    ensures { SplitMore st.now p result }
{
    let mut r = *st;
    r.splits.list[st.splits.taken] = p;
    r.splits.taken = st.splits.taken + 1;
    r.count = st.count + usize::from(p.parts);
    r
}

// A branch on constructor c: both sides where the top is whole, and where its constructor is known the side that can be taken.
// None where there would be more than 16 variables.
pub fn branch_variable(st: &Saved, c: u8, parts: u8) -> Option<Branched>
    requires { BranchAsks st.now c parts }
    ensures { Branching st.now c parts result }
{
    let v = st.stack[st.height - 1];
    if let Some(p) = find_split(st, v) {
        if p.constructor == c {
            return Some(Branched {
                next: Some(push_parts(st, p.first, parts)),
                other: None,
            });
        }
        return Some(Branched {
            next: None,
            other: Some(*st),
        });
    }
    if st.count + usize::from(parts) > 16 {
        return None;
    }
    let first = st.count as u8;
    let p = Split {
        variable: v,
        constructor: c,
        first,
        parts,
    };
    let more = add_taken(st, p);
    Some(Branched {
        next: Some(push_parts(&more, first, parts)),
        other: Some(*st),
    })
}
