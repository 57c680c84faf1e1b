// The rules in plain words: what the rule that a program breaks asks, and where it is broken.
use crate::text::write_line;
use intake::Failure;
use rules::answers::Reason;
use std::fmt;

// The place of a refusal.
#[derive(Clone, Copy)]
struct Where(Reason);

impl fmt::Display for Where {
    fn fmt<W: fmt::Write>(&self, f: &mut fmt::Formatter<W>) -> fmt::Result {
        match self.0 {
            Reason::BadChecksum { block } | Reason::BadBlock { block } => {
                write!(f, ", block {block}")
            }
            Reason::BadRecord { offset } => write!(f, ", payload byte {offset}"),
            Reason::BadConstructor { constructor } => write!(f, ", constructor {constructor}"),
            Reason::BadSignature { function } => write!(f, ", function {function}"),
            Reason::UnboundedArgument { function, argument } => {
                write!(f, ", function {function}, argument {argument}")
            }
            Reason::BadFlow(place)
            | Reason::BadTypes(place)
            | Reason::TooManyForms(place)
            | Reason::NotCovered(place) => {
                let instruction = place.instruction;
                write!(
                    f,
                    ", function {}, instruction {instruction}",
                    place.function
                )
            }
            _ => Ok(()),
        }
    }
}

// What the rule asks. The check refuses for no other reasons than these.
fn sentence(reason: Reason) -> &'static str {
    match reason {
        Reason::BadLength => "the length is 0, not a multiple of 512, or over 32768 bytes.",
        Reason::BadChecksum { .. } => {
            "the check in its last four bytes is not the sum of the 508 bytes before, \
             each times its place counted from 1."
        }
        Reason::BadBlock { .. } => {
            "its number is not its place in the file counted from 0, \
             its used count is not 504 (in the last block 1 to 504), \
             or an unused byte is not 0."
        }
        Reason::BadRecord { .. } => {
            "the record that begins here is cut short \
             or has a field outside its range, or bytes are left over from here on."
        }
        Reason::BadConstructor { .. } => {
            "one of its types is not below the number of types, \
             or its weight is 0 though it has arguments, or not 0 though it has none."
        }
        Reason::BadSignature { .. } => "one of its types is not below the number of types.",
        Reason::UnboundedArgument { .. } => {
            "no alternative of the size bound has a coefficient of 1 or more for this argument."
        }
        Reason::BadFlow(_) => {
            "it is the last and neither return nor stop, \
             or its else target is not among the instructions from the second next to the last, \
             or it is not the first and not exactly one earlier instruction leads to it, \
             or it is a branch behind a build or call on its path."
        }
        Reason::BadTypes(_) => {
            "the stack does not end in the types that it takes or would be higher than 16, \
             or its slot, constructor or function is not there."
        }
        Reason::TooManyForms(_) => {
            "its path would have more than 16 variables, \
             or a size form more than 16 alternatives."
        }
        _ => "a value on the stack may be larger than the function's size bound.",
    }
}

// The sentence on a refusal.
pub fn write_rule(rt: &impl Print, reason: Reason) -> Result<(), Failure> {
    let number = report::numbers_of(reason).number;
    let place = Where(reason);
    write_line(
        rt,
        format_args!("rule {number}{place}: {}", sentence(reason)),
    )
}
