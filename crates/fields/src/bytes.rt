// The bytes and numbers of a record.
ghost use Rattle.std.specs.Prelude.{◌≡◌, ◌+◌};
ghost use Rattle.rules.specs.Base.{byte_at, word_at};
ghost use Rattle.rules.specs.Records.{four_at};
ghost use Rattle.fields.specs.Onward.{onward, Reaches};

use blocks::join;

// Byte j of a record.
pub fn byte_from(file: &[u8], place: usize, left: usize, j: usize) -> u8
    requires { Reaches file.now place left (j + 1) }
    ensures { result ≡ byte_at (onward file.now place left) j }
{
    if j < left {
        return file[place + j];
    }
    file[place + j + 8]
}

// The number in two of them.
pub fn word_from(file: &[u8], place: usize, left: usize, j: usize) -> u16
    requires { Reaches file.now place left (j + 2) }
    ensures { result ≡ word_at (onward file.now place left) j }
{
    join(
        byte_from(file, place, left, j),
        byte_from(file, place, left, j + 1),
    )
}

pub fn four_from(file: &[u8], place: usize, left: usize, j: usize) -> [u8; 4]
    requires { Reaches file.now place left (j + 4) }
    ensures { result ≡ four_at (onward file.now place left) j }
{
    [
        byte_from(file, place, left, j),
        byte_from(file, place, left, j + 1),
        byte_from(file, place, left, j + 2),
        byte_from(file, place, left, j + 3),
    ]
}
