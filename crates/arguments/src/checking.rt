// The argument check: one type after the other is read, and each constructor puts its argument types in place of its own.
ghost use Rattle.std.specs.Prelude.{◌≡◌, ◌++◌, ◌+◌, ◌≤◌, length, take, drop};
ghost use Rattle.rules.specs.Base.{byte_at};
ghost use Rattle.rules.specs.Answers.{told};
ghost use Rattle.rules.specs.Container.{payload};
ghost use Rattle.rules.specs.Records.{arguments_of, function_of, program_in};
ghost use Rattle.rules.specs.Established.{Parsed};
ghost use Rattle.rules.specs.Prefix.{arguments_right};
ghost use Rattle.arguments.specs.Reading.{HeadThere, ReadsByte};

use rules::answers::Reason;
use rules::records::Declaration;

// The argument types of a declaration.
fn arguments_of(d: &Declaration) -> &[u8]
    requires { d.now.arity ≤ 4 }
    ensures types { result.now ≡ arguments_of d.now }
    ensures count { length result.now ≡ d.now.arity }
{
    &d.types[..usize::from(d.arity)]
}

// At most four types are put at a place, one after the other: for so few a copy whose length is not known takes longer, and an argument
// check does this for each byte.
fn put_few(types: &mut [u8; 256], to: usize, few: &[u8])
    requires { (length few.now ≤ 4) × (to + length few.now ≤ 256) }
    ensures { types.new ≡ take to types.old ++ (few.now ++ drop (length few.now) (drop to types.old)) }
{
    let n = few.len();
    if n == 0 {
        return;
    }
    types[to] = few[0];
    if n == 1 {
        return;
    }
    types[to + 1] = few[1];
    if n == 2 {
        return;
    }
    types[to + 2] = few[2];
    if n == 3 {
        return;
    }
    types[to + 3] = few[3];
}

// One byte of the arguments: from where on the types stand that are still to be read, or none where the byte is wrong.
fn read_byte(file: &[u8], known: usize, types: &mut [u8; 256], at: usize, c: usize) -> Option<usize>
    requires parsed { Parsed file.now }
    requires at_bound { (at ≤ 256) × (known ≡ byte_at (payload file.now) 2) }
    ensures { ReadsByte (program_in file.now) c at types.old types.new result }
{
    if at >= 256 || c >= known {
        return None;
    }
    let d = readers::constructor_declaration(file, c);
    let arguments = arguments_of(&d);
    if d.result != types[at] || arguments.len() > at + 1 {
        return None;
    }
    let next = at + 1 - arguments.len();
    put_few(types, next, arguments);
    Some(next)
}

// For the crates above: 12, the argument bytes, one after the other, for the function whose head stands at an offset.
pub fn check_arguments(file: &[u8], head: usize, bytes: &[u8]) -> Result<(), Reason>
    requires parsed { Parsed file.now }
    requires head_there { HeadThere (payload file.now) head }
    ensures { told result ≡ arguments_right (program_in file.now) (function_of (payload file.now) head)
        bytes.now }
{
    if bytes.len() > 65535 {
        return Err(Reason::ArgumentsTooLong);
    }
    let known = usize::from(blocks::payload_byte(file, 2));
    let d = readers::declaration(file, head);
    let parameters = arguments_of(&d);
    let mut types = [0u8; 256];
    let mut at = 256 - parameters.len();
    types[at..].copy_from_slice(parameters);
    for (i, &c) in bytes.iter().enumerate() {
        let Some(next) = read_byte(file, known, &mut types, at, usize::from(c)) else {
            return Err(Reason::BadArgument { offset: i });
        };
        at = next;
    }
    if at < 256 {
        return Err(Reason::BadArgument {
            offset: bytes.len(),
        });
    }
    Ok(())
}
