// Size bounds as formulas: a bound is its one alternative, or the largest of several, each a sum over the sizes x1 to x4 of the arguments.
use crate::marks::{marks_bound, marks_record};
use crate::signatures::Four;
use crate::text;
use crate::text::{Stop, end, end_cut, write_line};
use arrayvec::ArrayString;
use rules::answers::Reason;
use rules::records::AlternativeRecord;
use standing::find;
use std::fmt;
use std::fmt::Write;

// The sum that an alternative says. A coefficient of 1 is not written, and of 0 the whole term is not.
#[derive(Clone, Copy)]
struct Sum(AlternativeRecord);

impl fmt::Display for Sum {
    fn fmt<W: Write>(&self, f: &mut fmt::Formatter<W>) -> fmt::Result {
        let Sum(r) = *self;
        let mut begun = false;
        for (coefficient, size) in r.coefficients.iter().zip(["x1", "x2", "x3", "x4"].iter()) {
            let plus = if begun { " + " } else { "" };
            match *coefficient {
                0 => continue,
                1 => write!(f, "{plus}{size}")?,
                n => write!(f, "{plus}{n} {size}")?,
            }
            begun = true;
        }
        match (begun, r.constant) {
            (true, 0) => Ok(()),
            (true, n) => write!(f, " + {n}"),
            (false, n) => write!(f, "{n}"),
        }
    }
}

// An alternative that is cut short or has a field out of its range ends the listing.
fn list_refused(rt: &impl Print, file: &[u8], at: usize) -> Result<usize, Stop> {
    let Some(r) = find::<AlternativeRecord>(file, at) else {
        return end_cut(rt, "an alternative", at);
    };
    let coefficients = Four(r.coefficients);
    end(
        rt,
        format_args!(
            "> alternative: coefficients {coefficients}, constant {}",
            r.constant
        ),
    )
}

// The bound of function g, of so many alternatives from an offset on. The answer is the offset behind them.
pub fn list_bound(
    rt: &impl Print,
    file: &[u8],
    refusal: Option<Reason>,
    g: usize,
    alternatives: u8,
    from: usize,
) -> Result<usize, Stop> {
    let mark = text::mark(marks_bound(refusal, g));
    let mut sums = ArrayString::<320>::new();
    let mut at = from;
    for k in 0..alternatives {
        let right = find::<AlternativeRecord>(file, at).filter(|_| !marks_record(refusal, at));
        let Some(r) = right else {
            if 0 < k {
                write_line(rt, format_args!("{mark}size at most max({sums}, ..)"))?;
            }
            return list_refused(rt, file, at);
        };
        let comma = if k == 0 { "" } else { ", " };
        let _ = write!(sums, "{comma}{}", Sum(r));
        at = at.saturating_add(6);
    }
    if alternatives == 1 {
        write_line(rt, format_args!("{mark}size at most {sums}"))?;
    } else {
        write_line(rt, format_args!("{mark}size at most max({sums})"))?;
    }
    Ok(at)
}
