// The logger's text turned into a list argument.
#![tactic(auto)]

ghost use Rattle.std.specs.Prelude.{◌≡◌, length};
ghost use Rattle.rules.specs.Answers.{told, length_of};
ghost use Rattle.rules.specs.Lines.{lines_of};
ghost use Rattle.rules.specs.Memory.{lines_leave};

use index::Index;
use rules::answers::Reason;

mod index; // index.rt: the table by its letters
mod table; // table.rt: the rule of the table
mod text; // text.rt: the lines of the text

// The text's lines, looked up in the table, as a list at the output's front.
pub fn lines(text: &[u8], table: &[u8], cons: u8, nil: u8, out: &mut [u8]) -> Result<usize, Reason>
    ensures { (told result ≡ length_of (lines_of text.now table.now cons nil (length out.old)))
        × (out.new ≡ lines_leave text.now table.now cons nil out.old) }
{
    if cons == nil || !table::right(table) {
        return Err(Reason::BadTable);
    }
    let marks = index::marks(table);
    let index = Index::new(table, &marks);
    text::scan(text, &index)?;
    text::deliver(text, &index, cons, nil, out)
}
