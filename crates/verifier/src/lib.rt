// The check of a program: 1 to 10 in the order of document 01.
#![tactic(auto)]

ghost use Rattle.std.specs.Prelude.{◌≡◌};
ghost use Rattle.rules.specs.Answers.{told};
ghost use Rattle.rules.specs.Check.{verdict_of};
ghost use Rattle.verifier.specs.Examined.{ExaminedRight};

use program::Layout;
use rules::answers::{Counts, Reason};

// Whether a program is accepted, with its counts, or why it is not.
pub fn check(file: &[u8]) -> Result<Counts, Reason>
    ensures { told result ≡ verdict_of file.now }
{
    let header = examine(file)?.header;
    Ok(Counts {
        types: header.types,
        constructors: header.constructors,
        functions: header.functions,
    })
}

// For the crates above: the layout of a program that is accepted, or why it is not.
pub fn examine(file: &[u8]) -> Result<Layout, Reason>
    ensures { ExaminedRight file.now result }
{
    let n = blocks::verify(file)?;
    let layout = program::open(file, n)?;
    declarations::declared(file, &layout)?;
    declarations::bounded(file, &layout)?;
    flow::flows(file, &layout)?;
    typing::types(file, &layout)?;
    sizing::sizes(file, &layout)?;
    Ok(layout)
}
