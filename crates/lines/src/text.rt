// The lines of the text: the first that is wrong, and the list of their codes. Every line before a wrong one has four bytes.
ghost use Rattle.std.specs.Prelude.{◌≡◌, ◌+◌, ◌*◌, ◌/◌, ◌≤◌, List, ℕ, length};
ghost use Rattle.rules.specs.Answers.{told, length_of};
ghost use Rattle.rules.specs.Base.{found, passed, only};
ghost use Rattle.rules.specs.Lines.{entries, text_lines, codes, list_of};
ghost use Rattle.rules.specs.Memory.{copied_into, front_written};
ghost use Rattle.lines.specs.Marks.{listed};

use crate::index::Index;
use rules::answers::Reason;

// Whether every line is right and in the table, and which is the first that is not.
pub fn scan(text: &[u8], index: &Index) -> Result<(), Reason>
    ensures { told result ≡ only (codes (entries index.now.table.now) 1 (text_lines text.now)) }
{
    for i in 0..text.len().div_ceil(4) {
        if index.code(&text[4 * i..]).is_none() {
            return Err(Reason::BadLine { line: i + 1 });
        }
    }
    Ok(())
}

// The list of the lines' codes at the output's front.
fn write(text: &[u8], index: &Index, cons: u8, nil: u8, out: &mut [u8])
    requires { (only (codes (entries index.now.table.now) 1 (text_lines text.now)) ≡ passed)
        × (2 * (length text.now / 4) + 1 ≤ length out.old) }
    ensures { (cs : List ℕ) → codes (entries index.now.table.now) 1 (text_lines text.now) ≡ found cs
        → out.new ≡ front_written (list_of cons nil cs) out.old }
{
    let n = text.len() / 4;
    for i in 0..n {
        out[2 * i] = cons;
        out[2 * i + 1] = index.known_code(&text[4 * i..]);
    }
    out[2 * n] = nil;
}

// The list of the codes of lines that are right, if the output has room for it.
pub fn deliver(
    text: &[u8],
    index: &Index,
    cons: u8,
    nil: u8,
    out: &mut [u8],
) -> Result<usize, Reason>
    requires { only (codes (entries index.now.table.now) 1 (text_lines text.now)) ≡ passed }
    ensures { (told result ≡ length_of (listed (entries index.now.table.now) text.now cons nil (length out.old)))
        × (out.new ≡ copied_into out.old (listed (entries index.now.table.now) text.now cons nil (length out.old))) }
{
    let needed = 2 * (text.len() / 4) + 1;
    if out.len() < needed {
        return Err(Reason::OutputTooShort { needed });
    }
    write(text, index, cons, nil, out);
    Ok(needed)
}
