// A path from its first build or call on: variables become size forms, and the path is a straight line to its end.
ghost use Rattle.std.specs.Prelude.{◌≡◌};
ghost use Rattle.rules.specs.Established.{Verified};
ghost use Rattle.sizing.specs.Put.{widened};
ghost use Rattle.sizing.specs.Forms.{RowRight};
ghost use Rattle.sizing.specs.Steps.{EntryAsks, EntryIs, OwnAsks, OwnIs};
ghost use Rattle.sizing.specs.Walking.{LineAsks, LineSays};

use crate::bounds::{Bound, row_of, rows};
use crate::cover::covered_by;
use crate::forms::{Form, into_bound, no_form, single, unit};
use crate::paths::Saved;
use crate::routines::{Routine, maker_of};
use crate::splits::{Splits, carry};
use readers::{instruction, instruction_offset};
use rules::answers::{Place, Reason};
use rules::records::{Alternative, AlternativeRecord, Instruction};

// A bound's alternative over the first four variables.
pub fn widen(row: AlternativeRecord) -> Alternative
    requires { RowRight row }
    ensures { result ≡ widened 0 row.coefficients row.constant }
{
    let mut coefficients = [0u16; 16];
    for i in 0..4 {
        coefficients[i] = u16::from(row.coefficients[i]);
    }
    Alternative {
        coefficients,
        constant: u32::from(row.constant),
    }
}

// The function's own bound at its parameters' shapes.
pub fn own_form(file: &[u8], bound: Bound, s: &Splits) -> Form
    requires { Verified file.now × OwnAsks file.now bound s.now }
    ensures { OwnIs file.now bound s.now result }
{
    let n = rows(bound);
    let mut x = no_form();
    for i in 0..n {
        let row = row_of(file, bound, i);
        x.alternatives[i] = carry(file, widen(row), s);
    }
    x.count = n;
    x
}

// The form of the variable at place i of the stack.
pub fn entry_form(file: &[u8], st: &Saved, i: usize) -> Form
    requires { Verified file.now × EntryAsks file.now st.now i }
    ensures { EntryIs file.now st.now i result }
{
    let v = usize::from(st.stack[i]);
    single(carry(file, unit(v), &st.splits))
}

// The straight line of function g from instruction start on, a build or call: the number of the instruction behind its end. Only what is
// new on the stack has to be tested, where it arrives: at the next instruction. The stack is filled here and not by a function that
// returns it, since the compiler would then copy it.
pub fn straight_line(
    file: &[u8],
    heads: &[usize; 32],
    g: usize,
    f: Routine,
    start: usize,
    st: &Saved,
) -> Result<usize, Reason>
    requires { LineAsks file.now heads.now g f start st.now }
    ensures { LineSays file.now g start st.now result }
{
    let own = own_form(file, f.bound, &st.splits);
    let mut stack = [no_form(); 16];
    for i in 0..st.height {
        stack[i] = entry_form(file, st, i);
    }
    let mut height = st.height;
    let mut j = start;
    // The line goes on up to a return or a stop, wherever that is.
    loop {
        let ins = instruction(file, instruction_offset(f.base, j - 1));
        let Some(m) = maker_of(file, heads, ins) else {
            let Instruction::Load(a) = ins else {
                return Ok(j + 1);
            };
            stack[height] = stack[usize::from(a) - 1];
            height += 1;
            j += 1;
            continue;
        };
        let at = height - m.arity;
        let Some(x) = into_bound(file, m.bound, &stack[at..height]) else {
            return Err(Reason::TooManyForms(Place {
                function: g,
                instruction: j,
            }));
        };
        j += 1;
        if !covered_by(&own, &x) {
            return Err(Reason::NotCovered(Place {
                function: g,
                instruction: j,
            }));
        }
        stack[at] = x;
        height = at + 1;
    }
}
