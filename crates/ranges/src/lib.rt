// Whether the fields of one record are in range, number 4, and the instruction that a record says.
#![tactic(auto)]

ghost use Rattle.std.specs.Prelude.{◌≡◌, leb};
ghost use Rattle.rules.specs.Base.{all};
ghost use Rattle.rules.specs.Records.{past_zero, header_right, declaration_right, constructor_right, head_right, alternative_right};
ghost use Rattle.rules.specs.Records.{operation, is_some};

use rules::records::{
    AlternativeRecord, ConstructorRecord, Declaration, HeadRecord, Header, InstructionRecord,
};

mod operation; // operation.rt: the instruction that a record says

pub use operation::operation_of;

// "Fields past the arity are zero".
fn past_zero(n: u8, four: [u8; 4]) -> bool
    ensures { result ≡ past_zero n four }
{
    n <= 4 && four[usize::from(n)..].iter().all(|x| *x == 0)
}

// "four coefficients 0-15".
fn all_small(four: [u8; 4]) -> bool
    ensures { result ≡ all (λ c. leb c 15) four }
{
    four.iter().all(|c| *c <= 15)
}

// For the crates above, as are the next four: each is one record's test of number 4.
#[tactic(auto, unfolding(rules::specs::Records::header_right))]
pub fn header_right(h: Header) -> bool
    ensures { result ≡ header_right h }
{
    h.edition == 1
        && (1..=32).contains(&h.types)
        && (1..=64).contains(&h.constructors)
        && (1..=32).contains(&h.functions)
}

#[tactic(auto, unfolding(rules::specs::Records::declaration_right))]
fn declaration_right(d: Declaration) -> bool
    ensures { result ≡ declaration_right d }
{
    past_zero(d.arity, d.types)
}

#[tactic(auto, unfolding(rules::specs::Records::constructor_right))]
pub fn constructor_right(c: ConstructorRecord) -> bool
    ensures { result ≡ constructor_right c }
{
    declaration_right(c.declaration) && c.reserved == 0
}

#[tactic(auto, unfolding(rules::specs::Records::head_right))]
pub fn head_right(h: HeadRecord) -> bool
    ensures { result ≡ head_right h }
{
    declaration_right(h.declaration)
        && (1..=4).contains(&h.alternatives)
        && h.reserved == 0
        && (1..=256).contains(&h.instructions)
}

// Of a function with n arguments.
#[tactic(auto, unfolding(rules::specs::Records::alternative_right))]
pub fn alternative_right(n: u8, r: AlternativeRecord) -> bool
    ensures { result ≡ alternative_right n r }
{
    past_zero(n, r.coefficients) && all_small(r.coefficients)
}

pub fn instruction_right(r: InstructionRecord) -> bool
    ensures { result ≡ is_some (operation r) }
{
    operation_of(r).is_some()
}
