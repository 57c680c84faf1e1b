// Size forms: how one is made of a size bound and the forms of its arguments.
ghost use Rattle.std.specs.Prelude.{◌≡◌, ◌++◌, ◌+◌, ◌≤◌, ◌<◌, length, take};
ghost use Rattle.rules.specs.Container.{payload};
ghost use Rattle.rules.specs.Established.{Verified};
ghost use Rattle.rules.specs.Forms.{constant_only, variable_only, added, substituted, into_bound};
ghost use Rattle.sizing.specs.Put.{Bounded, AllBounded, Wide};
ghost use Rattle.sizing.specs.Forms.{form_in, FormRight, Single, Entry, FormMade, choices, RowRight, ArgumentForms, forms_in};
ghost use Rattle.sizing.specs.Bounds.{bound_in, BoundRight};

use crate::bounds::{Bound, row_of, rows};
use rules::records::{Alternative, AlternativeRecord};

// A size form: its first count alternatives. A list of its own length would be on the heap, which these crates have not.
#[derive(Clone, Copy)]
pub struct Form {
    pub alternatives: [Alternative; 16],
    pub count: usize,
}

// The alternative of one variable.
pub fn unit(v: usize) -> Alternative
    requires { v < 16 }
    ensures { result ≡ variable_only v }
{
    let mut coefficients = [0u16; 16];
    coefficients[v] = 1;
    Alternative {
        coefficients,
        constant: 0,
    }
}

// No alternative.
pub fn no_form() -> Form
    ensures { FormRight result × (result.count ≡ 0) }
{
    Form {
        alternatives: [constant(0); 16],
        count: 0,
    }
}

// The alternative of a constant alone.
pub fn constant(w: u32) -> Alternative
    ensures { result ≡ constant_only w }
{
    Alternative {
        coefficients: [0u16; 16],
        constant: w,
    }
}

// The form of one alternative. Zeros stand behind it: sixteen copies of it would take longer, and no one reads them.
pub fn single(a: Alternative) -> Form
    requires { Wide a }
    ensures { Single result a }
{
    let mut alternatives = [constant(0); 16];
    alternatives[0] = a;
    Form {
        alternatives,
        count: 1,
    }
}

// a and m times b.
pub fn plus(m: u16, b: Alternative, a: Alternative) -> Alternative
    requires { (m ≤ 15) × Bounded 15 131072 b × Bounded 32768 16777216 a }
    ensures { result ≡ added m b a }
{
    let mut r = a;
    for i in 0..16 {
        r.coefficients[i] = a.coefficients[i] + m * b.coefficients[i];
    }
    r.constant = a.constant + u32::from(m) * b.constant;
    r
}

// Every choice: an alternative of rest with m times one of form. None where there are more than 16.
pub fn chosen(m: u16, form: &Form, rest: &Form) -> Option<Form>
    requires { (m ≤ 15) × Entry form.now × FormRight rest.now × (0 < rest.now.count) × AllBounded 32768 16777216 (form_in rest.now) ×
        (0 < m) }
    ensures { FormMade result (choices m (form_in form.now) (form_in rest.now)) }
{
    let k = rest.count;
    let n = form.count * k;
    if n > 16 {
        return None;
    }
    let mut x = no_form();
    for i in 0..n {
        x.alternatives[i] = plus(m, form.alternatives[i / k], rest.alternatives[i % k]);
    }
    x.count = n;
    Some(x)
}

// The forms of arguments put into an alternative of a bound, where an argument with coefficient 0 has no part; none where there
// are more than 16. The last argument goes in first. Most forms have one alternative, and one is put into one in place: copying forms
// is what takes time.
pub fn substitute(row: AlternativeRecord, arguments: &[Form]) -> Option<Form>
    requires { RowRight row × ArgumentForms arguments.now }
    ensures { FormMade result (substituted (take (length arguments.now) row.coefficients) row.constant (forms_in arguments.now)) }
{
    let n = arguments.len();
    let mut rest = single(constant(u32::from(row.constant)));
    for i in 0..n {
        let k = n - 1 - i;
        let m = u16::from(row.coefficients[k]);
        if m == 0 {
            continue;
        }
        if arguments[k].count + rest.count == 2 {
            rest.alternatives[0] = plus(m, arguments[k].alternatives[0], rest.alternatives[0]);
            continue;
        }
        rest = chosen(m, &arguments[k], &rest)?;
    }
    Some(rest)
}

// The alternatives of y behind those of x.
pub fn append(x: &mut Form, y: &Form)
    requires { FormRight x.old × FormRight y.now × (x.old.count + y.now.count ≤ 16) }
    ensures { FormRight x.new × (x.new.count ≡ x.old.count + y.now.count) × (form_in x.new ≡ form_in x.old ++ form_in y.now) }
{
    let start = x.count;
    let end = start + y.count;
    x.alternatives[start..end].copy_from_slice(&y.alternatives[..y.count]);
    x.count = end;
}

// The forms of arguments put into a bound; none where there are more than 16. A build has one row, and nothing is appended then.
pub fn into_bound(file: &[u8], bound: Bound, arguments: &[Form]) -> Option<Form>
    requires { Verified file.now × BoundRight (payload file.now) bound × ArgumentForms arguments.now }
    ensures { FormMade result (into_bound (bound_in (payload file.now) (length arguments.now) bound) (forms_in arguments.now)) }
{
    let k = rows(bound);
    if k == 1 {
        return substitute(row_of(file, bound, 0), arguments);
    }
    let mut x = no_form();
    for i in 0..k {
        let y = substitute(row_of(file, bound, i), arguments)?;
        if x.count + y.count > 16 {
            return None;
        }
        append(&mut x, &y);
    }
    Some(x)
}
