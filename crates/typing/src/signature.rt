// The signature that an instruction names, read where it stands.
ghost use Rattle.std.specs.Prelude.{◌≡◌, ◌≤◌};
ghost use Rattle.std.specs.Option.{option_map, IfSome};
ghost use Rattle.rules.specs.Program.{constructor, function};
ghost use Rattle.rules.specs.Records.{program_in};
ghost use Rattle.rules.specs.Established.{Headed, LaidOut};
ghost use Rattle.operands.specs.Operands.{signature_of};
ghost use Rattle.typing.specs.Typing.{constructor_signature, function_signature};

use program::Layout;
use rules::records::{Declaration, Header};

pub fn constructor_signature(file: &[u8], header: Header, c: u8) -> Option<Declaration>
    requires { Headed file.now header }
    ensures says { option_map signature_of result ≡ constructor_signature (constructor (program_in file.now) c) }
    ensures few { IfSome result (λ d. d.arity ≤ 4) }
{
    if c >= header.constructors {
        return None;
    }
    Some(readers::constructor_declaration(file, usize::from(c)))
}

pub fn function_signature(file: &[u8], layout: &Layout, g: u8) -> Option<Declaration>
    requires { LaidOut file.now layout.now.header layout.now.heads }
    ensures says { option_map signature_of result ≡ function_signature (function (program_in file.now) g) }
    ensures few { IfSome result (λ d. d.arity ≤ 4) }
{
    if g >= layout.header.functions {
        return None;
    }
    Some(readers::declaration(file, layout.heads[usize::from(g)]))
}
