// What lent tables and outputs are filled with, and what is found in them afterwards.
ghost use Rattle.std.specs.Prelude.{◌≤◌, ◌<◌};

// Every number of a table before a call.
pub const NUMBER: u16 = 42405;

// Every byte of an output before a call.
pub const BYTE: u8 = 165;

// What a run left in a table: all of it as it was filled, its usable entries zero and the rest as it was filled, both where no
// entry is usable, or something else.
#[derive(Clone, Copy)]
pub enum Left {
    Kept,
    Zeroed,
    Either,
    Wrong,
}

fn is_filled<T: Copy + PartialEq>(table: &[T], with: T) -> bool {
    table.iter().all(|one| *one == with)
}

// Whether bytes are as they were filled.
pub fn kept(bytes: &[u8]) -> bool {
    is_filled(bytes, BYTE)
}

// How many numbers of a table of so many are usable, with `each` numbers to an entry: whole entries, and no more than `most` of them.
fn usable(length: usize, each: usize, most: usize) -> usize
    requires { 0 < each }
    ensures { result ≤ length }
{
    (length / each).min(most) * each
}

fn left_in(table: &[u16], each: usize, most: usize) -> Left
    requires { 0 < each }
{
    let (used, rest) = table.split_at(usable(table.len(), each, most));
    if !is_filled(rest, NUMBER) {
        Left::Wrong
    } else if used.is_empty() {
        Left::Either
    } else if is_filled(used, NUMBER) {
        Left::Kept
    } else if is_filled(used, 0) {
        Left::Zeroed
    } else {
        Left::Wrong
    }
}

// What a run left in its cells of five numbers and in its stack. Its frames are its own, and end with it.
pub fn found(cells: &[u16], stack: &[u16]) -> Left {
    match (left_in(cells, 5, 65471), left_in(stack, 1, 65535)) {
        (Left::Either, left) | (left, Left::Either) => left,
        (Left::Kept, Left::Kept) => Left::Kept,
        (Left::Zeroed, Left::Zeroed) => Left::Zeroed,
        _ => Left::Wrong,
    }
}
