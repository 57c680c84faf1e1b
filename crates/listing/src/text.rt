// The lines of the listing, and how it ends.
use arrayvec::ArrayString;
use intake::{Failure, write_output};
use rules::answers::{Counts, Reason};
use std::fmt::{Display, Write};

// Why a listing of records stops: its last line is written, or a line could not be written.
#[derive(Clone, Copy)]
pub enum Stop {
    Ended,
    Failed(Failure),
}

impl From<Failure> for Stop {
    fn from(failure: Failure) -> Stop {
        Stop::Failed(failure)
    }
}

// The two columns that a line begins with.
pub fn mark(is_marked: bool) -> &'static str {
    if is_marked { "> " } else { "  " }
}

// Writes a line by one call. There is room for the longest, which are the rules' sentences and bounds of four alternatives.
pub fn write_line<T: Display + Drop>(rt: &impl Print, line: T) -> Result<(), Failure> {
    let mut text = ArrayString::<320>::new();
    let _ = writeln!(text, "{line}");
    write_output(rt, text.as_str().as_bytes())
}

// The last line of a listing.
pub fn end<T: Display + Drop, A>(rt: &impl Print, line: T) -> Result<A, Stop> {
    write_line(rt, line)?;
    Err(Stop::Ended)
}

// A record that is not there whole ends the listing.
pub fn end_cut<A>(rt: &impl Print, record: &str, at: usize) -> Result<A, Stop> {
    end(
        rt,
        format_args!("> {record} is cut short here, at payload byte {at}"),
    )
}

// The line that tells a verdict.
pub fn write_verdict_line(rt: &impl Print, verdict: Result<Counts, Reason>) -> Result<(), Failure> {
    let mut line = [0u8; 72];
    let count = report::line::write_verdict(verdict, &mut line);
    write_output(rt, &line[..count])
}

// An empty line, between two parts of the listing.
pub fn write_gap(rt: &impl Print) -> Result<(), Failure> {
    write_output(rt, b"\n")
}
