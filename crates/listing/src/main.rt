// Reads a program on standard input and writes a listing of it: the verdict, the rule that a refused program breaks, and the records
// with the place of the refusal marked. Where the input cannot be read or a line cannot be written, the reason goes to standard error.
#![tactic(auto)]

ghost use Rattle.std.specs.Prelude.{◌≡◌, ◌<◌, None, Some, IfSome};
ghost use Rattle.rules.specs.Answers.{told};
ghost use Rattle.rules.specs.Base.{found};
ghost use Rattle.rules.specs.Check.{verdict_of};

mod code; // code.rt: the instructions of a function
mod constructors; // constructors.rt: the constructors that a program declares
mod contents; // contents.rt: the records of a payload, in file order
mod damage; // damage.rt: the blocks of a file that is damaged
mod formulas; // formulas.rt: size bounds as formulas
mod functions; // functions.rt: the functions that a program declares
mod marks; // marks.rt: which line the place of a refusal marks
mod sentences; // sentences.rt: the rules in plain words
mod signatures; // signatures.rt: declared types as text
mod states; // states.rt: the types of the stack on arrival at an instruction
mod text; // text.rt: the lines of the listing

use intake::{Failure, has_words, read_input, say_failure};
use opened::OpenProgram;
use rules::answers::{Counts, Reason};

// The verdict on a program whose counts are known where it was accepted.
fn verdict_on(file: &[u8], counts: Option<Counts>) -> Result<Counts, Reason>
    ensures refused { counts ≡ None → told result ≡ verdict_of file.now }
    ensures accepted { IfSome counts (λ c. told result ≡ found c) }
{
    match counts {
        Some(counts) => Ok(counts),
        None => verifier::check(file),
    }
}

// The counts of a program, which are 0 where it was refused.
fn counts_of(program: OpenProgram<'_>) -> Option<Counts>
    ensures refused { program.entry.types ≡ 0 → result ≡ None }
    ensures accepted { 0 < program.entry.types → result ≡ Some (record {
      types = program.entry.types;
      constructors = program.entry.constructors;
      functions = program.entry.functions;
    }) }
{
    if program.types == 0 {
        return None;
    }
    Some(Counts {
        types: program.types,
        constructors: program.constructors,
        functions: program.functions,
    })
}

fn list_opened(rt: &impl Print, file: &[u8], counts: Option<Counts>) -> Result<(), Failure> {
    let verdict = verdict_on(file, counts);
    text::write_verdict_line(rt, verdict)?;
    let refusal = verdict.err();
    if let Some(reason) = refusal {
        sentences::write_rule(rt, reason)?;
    }
    match refusal {
        Some(Reason::BadLength) => Ok(()),
        Some(Reason::BadChecksum { block } | Reason::BadBlock { block }) => {
            damage::list_blocks(rt, file, block)
        }
        _ => contents::list_records(rt, file, refusal),
    }
}

// The listing of any bytes: they are opened, and the blocks and the counts go on.
fn list_input(rt: &(impl Input + Print)) -> Result<(), Failure> {
    let mut buffer = [0u8; 32769];
    let count = read_input(rt, &mut buffer)?;
    let program = opened::open(&buffer[..count]);
    list_opened(rt, program.blocks, counts_of(program))
}

// It takes no words: whoever names a file would wait for standard input.
fn main(rt: HostRuntime) {
    if has_words(&rt) {
        let _ = eprintln!(rt; "usage: listing <FILE");
        return;
    }
    say_failure(&rt, list_input(&rt));
}
