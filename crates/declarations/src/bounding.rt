// 6: whether each argument of each function has a coefficient of 1 or more in some alternative of the size bound.
ghost use Rattle.std.specs.Prelude.{◌≡◌, false, ◌||◌, ℕ, ◌≤◌, ◌<◌, length, get_or, ltb};
ghost use Rattle.rules.specs.Answers.{told};
ghost use Rattle.rules.specs.Container.{payload};
ghost use Rattle.rules.specs.Declarations.{bound_rule, bounds_right};
ghost use Rattle.rules.specs.Established.{Verified, LaidOut};
ghost use Rattle.rules.specs.There.{FunctionThere};
ghost use Rattle.rules.specs.Records.{alternative_offset, function_of, program_in};
ghost use Rattle.declarations.specs.Bounded.{positive_in};

use program::Layout;
use readers::{alternative, alternative_offset, head};
use rules::answers::Reason;

// Marks those of four arguments that have a coefficient of 1 or more here.
fn mark(found: &mut [bool; 4], four: [u8; 4])
    ensures { (i : ℕ) → i < 4 → get_or found.new i false ≡ (get_or found.old i false || ltb 0 (get_or four i 0)) }
{
    for j in 0..4 {
        found[j] |= 0 < four[j];
    }
}

// Which of four arguments have a coefficient of 1 or more in some alternative of the function at an offset.
fn bounded_arguments(file: &[u8], at: usize, count: u8) -> [bool; 4]
    requires { Verified file.now × (alternative_offset at count ≤ length (payload file.now)) }
    ensures { (j : ℕ) → j < 4 → get_or result j false ≡ positive_in (payload file.now) at 0 count j }
{
    let mut found = [false; 4];
    for k in 0..usize::from(count) {
        let a = alternative(file, alternative_offset(at, k));
        mark(&mut found, a.coefficients);
    }
    found
}

// 6 of function g, whose head stands at an offset.
fn function_bounded(file: &[u8], g: usize, at: usize) -> Result<(), Reason>
    requires { Verified file.now × FunctionThere (payload file.now) at }
    ensures { told result ≡ bound_rule g (function_of (payload file.now) at) }
{
    let h = head(file, at);
    let found = bounded_arguments(file, at, h.alternatives);
    for k in 0..usize::from(h.declaration.arity) {
        if !found[k] {
            return Err(Reason::UnboundedArgument {
                function: g,
                argument: k + 1,
            });
        }
    }
    Ok(())
}

// For the crates above: 6 over a program whose records are right.
pub fn bounded(file: &[u8], layout: &Layout) -> Result<(), Reason>
    requires { LaidOut file.now layout.now.header layout.now.heads }
    ensures { told result ≡ bounds_right (program_in file.now) }
{
    for g in 0..usize::from(layout.header.functions) {
        function_bounded(file, g, layout.heads[g])?;
    }
    Ok(())
}
