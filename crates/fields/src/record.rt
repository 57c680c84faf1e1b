// What a kind of record is: how many bytes it has, and what they say.
ghost use Rattle.std.specs.Prelude.{◌≡◌, List, ℕ, ◌+◌, ◌≤◌, ◌<◌};
ghost use Rattle.rules.specs.Base.{byte_at};
ghost use Rattle.fields.specs.Onward.{onward, Reaches};

// For the crates above: a kind of record.
pub trait Record {
    // How many bytes it has.
    const SIZE: usize;

    ghost SIZE: { ℕ };

    // The record that begins at an offset of these bytes.
    ghost record_at: { List ℕ → ℕ → Self };

    // For the crates above, too: the record from its place in the file on, of which its block has so many bytes left.
    fn read(file: &[u8], place: usize, left: usize) -> Self
        requires { Reaches file.now place left SIZE }
        ensures { result ≡ record_at (onward file.now place left) 0 };

    ghost some: { 1 ≤ SIZE };

    ghost short: { SIZE ≤ 504 };

    // Where these bytes are the same, so is the record.
    ghost same: { (a : List ℕ) (p : ℕ) (b : List ℕ) (q : ℕ)
        → ((j : ℕ) → j < SIZE → byte_at a (p + j) ≡ byte_at b (q + j)) → record_at a p ≡ record_at b q };
}
