// The rule of the table: whole entries, each of which begins with three capital letters.
ghost use Rattle.std.specs.Prelude.{◌≡◌, ◌≤◌, length};
ghost use Rattle.rules.specs.Lines.{capital as is_capital, letters_right, table_right};

fn capital(b: u8) -> bool
    ensures { result ≡ is_capital b }
{
    (65 <= b) & (b <= 90)
}

// Whether a text begins with three capital letters.
pub fn letters(text: &[u8]) -> bool
    requires { 3 ≤ length text.now }
    ensures { result ≡ letters_right text.now }
{
    capital(text[0]) & capital(text[1]) & capital(text[2])
}

pub fn right(table: &[u8]) -> bool
    ensures { result ≡ table_right table.now }
{
    if table.len() % 4 != 0 {
        return false;
    }
    for k in 0..table.len() / 4 {
        if !letters(&table[4 * k..]) {
            return false;
        }
    }
    true
}
