// The constructors that a program declares, one a line.
use crate::marks::{marks_constructor, marks_record};
use crate::signatures::{Fields, Signature};
use crate::text;
use crate::text::{Stop, end, end_cut, write_line};
use intake::Failure;
use rules::answers::Reason;
use rules::records::ConstructorRecord;
use standing::find;

// A constructor that takes nothing weighs nothing, and its weight is not said.
fn write_constructor(
    rt: &impl Print,
    is_marked: bool,
    c: usize,
    r: ConstructorRecord,
) -> Result<(), Failure> {
    let mark = text::mark(is_marked);
    let signature = Signature(r.declaration);
    if r.declaration.arity == 0 && r.weight == 0 {
        return write_line(rt, format_args!("{mark}constructor {c}{signature}"));
    }
    write_line(
        rt,
        format_args!("{mark}constructor {c}{signature}, weight {}", r.weight),
    )
}

// Constructor c, whose record stands at an offset. With a field out of its range it ends the listing, as its bytes stand.
fn list_constructor(
    rt: &impl Print,
    file: &[u8],
    refusal: Option<Reason>,
    c: usize,
    at: usize,
) -> Result<usize, Stop> {
    let Some(r) = find::<ConstructorRecord>(file, at) else {
        return end_cut(rt, "a constructor", at);
    };
    if marks_record(refusal, at) {
        let fields = Fields(r.declaration);
        return end(
            rt,
            format_args!(
                "> constructor {c}: {fields}, weight {}, reserved {}",
                r.weight, r.reserved
            ),
        );
    }
    write_constructor(rt, marks_constructor(refusal, c), c, r)?;
    Ok(at.saturating_add(8))
}

// The answer is the offset behind them.
pub fn list_constructors(
    rt: &impl Print,
    file: &[u8],
    refusal: Option<Reason>,
    constructors: u8,
) -> Result<usize, Stop> {
    text::write_gap(rt)?;
    let mut at = readers::constructor_offset(0);
    for c in 0..usize::from(constructors) {
        at = list_constructor(rt, file, refusal, c, at)?;
    }
    Ok(at)
}
