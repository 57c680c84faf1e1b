// Declared types as text: of a declaration that is right, and of one as its bytes stand.
use rules::records::Declaration;
use std::fmt;

// The types of the arguments, where there are any, and the type of the result.
#[derive(Clone, Copy)]
pub struct Signature(pub Declaration);

impl fmt::Display for Signature {
    fn fmt<W: fmt::Write>(&self, f: &mut fmt::Formatter<W>) -> fmt::Result {
        let Signature(d) = *self;
        for (k, number) in d.types.iter().take(usize::from(d.arity)).enumerate() {
            let before = if k == 0 { " (" } else { ", " };
            write!(f, "{before}type {number}")?;
        }
        let behind = if d.arity == 0 { "" } else { ")" };
        write!(f, "{behind} : type {}", d.result)
    }
}

// Four numbers as they stand.
#[derive(Clone, Copy)]
pub struct Four(pub [u8; 4]);

impl fmt::Display for Four {
    fn fmt<W: fmt::Write>(&self, f: &mut fmt::Formatter<W>) -> fmt::Result {
        let Four([first, second, third, fourth]) = *self;
        write!(f, "{first} {second} {third} {fourth}")
    }
}

// A declaration as its bytes stand.
#[derive(Clone, Copy)]
pub struct Fields(pub Declaration);

impl fmt::Display for Fields {
    fn fmt<W: fmt::Write>(&self, f: &mut fmt::Formatter<W>) -> fmt::Result {
        let Fields(d) = *self;
        let types = Four(d.types);
        write!(f, "result {}, arity {}, types {types}", d.result, d.arity)
    }
}
