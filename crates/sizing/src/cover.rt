// The cover test: whether a bound's form covers an entry's.
ghost use Rattle.std.specs.Prelude.{◌≡◌};
ghost use Rattle.rules.specs.Base.{any};
ghost use Rattle.rules.specs.Forms.{matches, covers};
ghost use Rattle.sizing.specs.Forms.{form_in, FormRight};

use crate::forms::Form;
use rules::records::Alternative;

// Whether no coefficient and no constant of a exceeds b's.
pub fn matched_by(a: Alternative, b: Alternative) -> bool
    ensures { result ≡ matches a b }
{
    a.constant <= b.constant
        && a.coefficients
            .iter()
            .zip(b.coefficients.iter())
            .all(|(x, y)| x <= y)
}

// Whether some alternative of the bound matches a.
pub fn some_matches(bound: &Form, a: Alternative) -> bool
    requires { FormRight bound.now }
    ensures { result ≡ any (matches a) (form_in bound.now) }
{
    bound.alternatives[..bound.count]
        .iter()
        .any(|b| matched_by(a, *b))
}

// Whether every alternative of the form is matched in the bound.
pub fn covered_by(bound: &Form, form: &Form) -> bool
    requires { FormRight bound.now × FormRight form.now }
    ensures { result ≡ covers (form_in bound.now) (form_in form.now) }
{
    form.alternatives[..form.count]
        .iter()
        .all(|a| some_matches(bound, *a))
}
