// 5: whether the types of each constructor and function are below T, and each weight is right.
ghost use Rattle.std.specs.Prelude.{◌≡◌, ◌&&◌, ◌∷◌, ◌≤◌};
ghost use Rattle.rules.specs.Answers.{told};
ghost use Rattle.rules.specs.Base.{each};
ghost use Rattle.rules.specs.Declarations.{all_below, weight_right, constructor_rule, signature_rule, declarations_right};
ghost use Rattle.rules.specs.Established.{Headed, LaidOut};
ghost use Rattle.rules.specs.Records.{arguments_of, constructor_of, program_in};

use program::Layout;
use readers::{constructor, constructor_offset, declaration};
use rules::answers::Reason;
use rules::records::{ConstructorRecord, Declaration, Header};

// "type not below T": the result type, and as many argument types as the arity says.
fn types_below(types: u8, d: Declaration) -> bool
    requires { d.arity ≤ 4 }
    ensures { result ≡ all_below types (d.result ∷ arguments_of d) }
{
    d.result < types && d.types[..usize::from(d.arity)].iter().all(|t| *t < types)
}

// "Weight is 0 for arity 0, else 1-255".
fn weight_right(c: ConstructorRecord) -> bool
    requires { c.declaration.arity ≤ 4 }
    ensures { result ≡ weight_right (constructor_of c) }
{
    let d = c.declaration;
    if d.arity == 0 {
        c.weight == 0
    } else {
        0 < c.weight
    }
}

fn constructor_declared(types: u8, c: ConstructorRecord) -> bool
    requires { c.declaration.arity ≤ 4 }
    ensures { result ≡ (all_below types (c.declaration.result ∷ arguments_of c.declaration) && weight_right (constructor_of c)) }
{
    types_below(types, c.declaration) && weight_right(c)
}

fn constructors_declared(file: &[u8], h: Header) -> Result<(), Reason>
    requires { Headed file.now h }
    ensures { told result ≡ each (constructor_rule (program_in file.now).types) 0
        (program_in file.now).constructors }
{
    for k in 0..usize::from(h.constructors) {
        let c = constructor(file, constructor_offset(k));
        if !constructor_declared(h.types, c) {
            return Err(Reason::BadConstructor { constructor: k });
        }
    }
    Ok(())
}

fn functions_declared(file: &[u8], layout: &Layout) -> Result<(), Reason>
    requires { LaidOut file.now layout.now.header layout.now.heads }
    ensures { told result ≡ each (signature_rule (program_in file.now).types) 0
        (program_in file.now).functions }
{
    for g in 0..usize::from(layout.header.functions) {
        if !types_below(layout.header.types, declaration(file, layout.heads[g])) {
            return Err(Reason::BadSignature { function: g });
        }
    }
    Ok(())
}

// For the crates above: 5 over a program whose records are right.
pub fn declared(file: &[u8], layout: &Layout) -> Result<(), Reason>
    requires { LaidOut file.now layout.now.header layout.now.heads }
    ensures { told result ≡ declarations_right (program_in file.now) }
{
    constructors_declared(file, layout.header)?;
    functions_declared(file, layout)
}
