// The records of a payload, in file order, up to the record that is cut short or has a field out of its range.
use crate::marks::marks_record;
use crate::text::{Stop, end, end_cut, write_line};
use crate::{constructors, functions, text};
use intake::Failure;
use rules::answers::Reason;
use rules::records::Header;
use standing::find;
use std::fmt;

// A count, with the word for one or for several of what is counted.
#[derive(Clone, Copy)]
struct Counted(u8, &'static str);

impl fmt::Display for Counted {
    fn fmt<W: fmt::Write>(&self, f: &mut fmt::Formatter<W>) -> fmt::Result {
        let Counted(count, word) = *self;
        let ending = if count == 1 { "" } else { "s" };
        write!(f, "{count} {word}{ending}")
    }
}

fn write_header(rt: &impl Print, header: Header, is_marked: bool) -> Result<(), Failure> {
    let mark = text::mark(is_marked);
    let types = Counted(header.types, "type");
    let constructors = Counted(header.constructors, "constructor");
    let functions = Counted(header.functions, "function");
    write_line(
        rt,
        format_args!(
            "{mark}edition {}, {types}, {constructors}, {functions}",
            header.edition
        ),
    )
}

fn list(rt: &impl Print, file: &[u8], refusal: Option<Reason>) -> Result<(), Stop> {
    text::write_gap(rt)?;
    let Some(header) = find::<Header>(file, 0) else {
        return end_cut(rt, "the header", 0);
    };
    let refused = marks_record(refusal, 0);
    write_header(rt, header, refused)?;
    if refused {
        return Err(Stop::Ended);
    }
    let first = constructors::list_constructors(rt, file, refusal, header.constructors)?;
    let rest = functions::list_functions(rt, file, refusal, header, first)?;
    if marks_record(refusal, rest) {
        text::write_gap(rt)?;
        return end(
            rt,
            format_args!("> bytes are left over from here on, payload byte {rest}"),
        );
    }
    Ok(())
}

pub fn list_records(rt: &impl Print, file: &[u8], refusal: Option<Reason>) -> Result<(), Failure> {
    match list(rt, file, refusal) {
        Ok(()) | Err(Stop::Ended) => Ok(()),
        Err(Stop::Failed(failure)) => Err(failure),
    }
}
