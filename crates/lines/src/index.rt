// The table by its letters.
ghost use Rattle.std.specs.Prelude.{◌≡◌, true, Some, IsSome, ◌≤◌, ◌<◌, length, take};
ghost use Rattle.rules.specs.Lines.{letters_right, entries, table_right, code as code_of};
ghost use Rattle.lines.specs.Marks.{number as number_of, Marked};

use crate::table::letters;

// A table, and for each three capital letters the constructor of the first entry that has them. The marks are lent, since an index that
// holds them is copied, all 35 KB, where it is returned.
#[derive(Drop)]
pub struct Index<'a> {
    table: &'a [u8],
    marks: &'a [Option<u8>; 17576],
    pub ghost marked: { Marked (entries table.now) marks.now },
}

// The number of the three capital letters that a text begins with: AAA has 0 and ZZZ has 17,575.
fn number(text: &[u8]) -> usize
    requires { (3 ≤ length text.now) × (letters_right text.now ≡ true) }
    ensures { (result ≡ number_of text.now) × (result < 17576) }
{
    let first = usize::from(text[0] - 65);
    let second = usize::from(text[1] - 65);
    let third = usize::from(text[2] - 65);
    676 * first + 26 * second + third
}

// The marks of a table, made from the last entry to the first, so that the earlier of two with the same letters counts.
pub fn marks(table: &[u8]) -> [Option<u8>; 17576]
    requires { table_right table.now ≡ true }
    ensures { Marked (entries table.now) result }
{
    let mut marks = [None; 17576];
    for k in (0..table.len() / 4).rev() {
        let entry = &table[4 * k..4 * k + 4];
        marks[number(entry)] = Some(entry[3]);
    }
    marks
}

impl<'a> Index<'a> {
    pub fn new(table: &'a [u8], marks: &'a [Option<u8>; 17576]) -> Index<'a>
        requires { Marked (entries table.now) marks.now }
        ensures { result.table.now ≡ table.now }
    {
        Index { table, marks }
    }

    // The code of the line that a text begins with, if it is right and in the table.
    pub fn code(&self, text: &[u8]) -> Option<u8>
        ensures { result ≡ code_of (entries self.now.table.now) (take 4 text.now) }
    {
        if text.len() < 4 || !letters(text) || text[3] != 10 {
            return None;
        }
        self.marks[number(text)]
    }

    // The code of a line that has one. So no 0 is returned for want of a code; a trap in its place would be tested for at every line.
    pub fn known_code(&self, text: &[u8]) -> u8
        requires { IsSome (code_of (entries self.now.table.now) (take 4 text.now)) }
        ensures { code_of (entries self.now.table.now) (take 4 text.now) ≡ Some result }
    {
        self.marks[number(text)].unwrap_or(0)
    }
}
