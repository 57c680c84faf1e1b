// The functions that a program declares: for each its signature, its size bound and its code.
use crate::marks::{marks_record, marks_signature};
use crate::signatures::{Fields, Signature};
use crate::states::Names;
use crate::text::{Stop, end, end_cut, write_line};
use crate::{code, formulas, text};
use rules::answers::Reason;
use rules::records::{HeadRecord, Header};
use standing::find;

// A head with a field out of its range ends the listing, as its bytes stand.
fn list_refused(rt: &impl Print, g: usize, head: HeadRecord) -> Result<usize, Stop> {
    let fields = Fields(head.declaration);
    end(
        rt,
        format_args!(
            "> function {g}: {fields}, alternatives {}, reserved {}, instructions {}",
            head.alternatives, head.reserved, head.instructions
        ),
    )
}

// Function g, whose head stands at an offset. The answer is the offset behind it.
fn list_function(
    rt: &impl Print,
    file: &[u8],
    refusal: Option<Reason>,
    names: &Names,
    g: usize,
    at: usize,
) -> Result<usize, Stop> {
    text::write_gap(rt)?;
    let Some(head) = find::<HeadRecord>(file, at) else {
        return end_cut(rt, "a function head", at);
    };
    if marks_record(refusal, at) {
        return list_refused(rt, g, head);
    }
    let mark = text::mark(marks_signature(refusal, g));
    let signature = Signature(head.declaration);
    write_line(rt, format_args!("{mark}function {g}{signature}"))?;
    let behind = at.saturating_add(10);
    let code = formulas::list_bound(rt, file, refusal, g, head.alternatives, behind)?;
    code::list_code(rt, file, refusal, names, g, head, code)
}

// The functions of a program, the first of which stands at an offset. The answer is the offset behind them.
pub fn list_functions(
    rt: &impl Print,
    file: &[u8],
    refusal: Option<Reason>,
    header: Header,
    first: usize,
) -> Result<usize, Stop> {
    let names = Names {
        constructors: header.constructors,
        functions: header.functions,
        heads: heads_from(file, first),
    };
    let mut at = first;
    for g in 0..usize::from(header.functions) {
        at = list_function(rt, file, refusal, &names, g, at)?;
    }
    Ok(at)
}

// The size of a function's records, by what its head says. A head that is not there whole has nothing behind it.
fn size_of(head: Option<HeadRecord>) -> usize {
    match head {
        Some(head) => {
            10 + 6 * usize::from(head.alternatives) + 4 * usize::from(head.instructions)
        }
        None => 10,
    }
}

// Where the heads of up to 32 functions stand, from the first one's offset on.
fn heads_from(file: &[u8], first: usize) -> [usize; 32] {
    let mut heads = [first; 32];
    for g in 1..32 {
        let before = heads[g - 1];
        heads[g] = before.saturating_add(size_of(find::<HeadRecord>(file, before)));
    }
    heads
}
