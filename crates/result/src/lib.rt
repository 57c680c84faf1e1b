// The result: how many bytes it has, and its bytes in prefix order. A cell names only numbers below its own, so the recursion's number
// falls. Constants are taken at once, of the other arguments all but the last by a call and the last by going round: lists and numbers,
// however long, take one call. The recursion gets the lent blocks behind one more reference: a slice has two words, and each call would
// keep a copy of them.
#![tactic(auto)]

ghost use Rattle.std.specs.Prelude.{◌≡◌, ◌+◌, ◌≤◌, ◌<◌, length};
ghost use Rattle.std.proofs.lemmas.List.Edits.{sets};
ghost use Rattle.rules.specs.Memory.{front_written};
ghost use Rattle.fetch.specs.Indexed.{constructor_arity};
ghost use Rattle.store.specs.Cells.{arity_in};
ghost use Rattle.result.specs.Result.{bytes_of, Readable};

use fetch::constructor_arity;
use store::{argument_at, constructor_at, is_constant};

// How many arguments a reference has.
fn arity_of(file: &&[u8], cells: &[u16], k: usize) -> usize
    requires { Readable file.now.now cells.now k }
    ensures { result ≡ arity_in (constructor_arity file.now.now) cells.now k }
{
    if is_constant(k) {
        return 0;
    }
    constructor_arity(*file, constructor_at(cells, k))
}

// How many bytes the value of a reference has.
fn count_value(file: &&[u8], cells: &[u16], k: usize) -> usize
    requires readable { Readable file.now.now cells.now k }
    requires k_len_bound { length (bytes_of file.now.now cells.now k) < 4294967296 }
    ensures { result ≡ length (bytes_of file.now.now cells.now k) }
{
    let mut here = k;
    let mut n = arity_of(file, cells, here);
    let mut total: usize = 1;
    let mut j: usize = 0;
    // It goes round at another reference from argument 0 on, so it is no `for`.
    while j < n {
        let child = argument_at(cells, here, j);
        if is_constant(child) {
            total += 1;
            j += 1;
        } else if j + 1 < n {
            total += count_value(file, cells, child);
            j += 1;
        } else {
            here = child;
            n = arity_of(file, cells, here);
            total += 1;
            j = 0;
        }
    }
    total
}

// For the crates above: how many bytes the value of a reference has.
pub fn count(file: &[u8], cells: &[u16], k: usize) -> usize
    requires readable { Readable file.now cells.now k }
    requires k_len_bound { length (bytes_of file.now cells.now k) < 4294967296 }
    ensures { result ≡ length (bytes_of file.now cells.now k) }
{
    count_value(&file, cells, k)
}

// Writes the value of a reference from a place on, and returns the next place.
fn write_value(file: &&[u8], cells: &[u16], out: &mut [u8], k: usize, at: usize) -> usize
    requires readable { Readable file.now.now cells.now k }
    requires k_in_bounds { at + length (bytes_of file.now.now cells.now k) ≤ length out.old }
    ensures { (result ≡ at + length (bytes_of file.now.now cells.now k))
        × (out.new ≡ sets out.old at (bytes_of file.now.now cells.now k)) }
{
    let mut here = k;
    let mut n = arity_of(file, cells, here);
    out[at] = constructor_at(cells, here) as u8;
    let mut next = at + 1;
    let mut j: usize = 0;
    // As in count_value it is no `for`. The two walks stay two: one over a closure would hand it down through each level of the recursion.
    while j < n {
        let child = argument_at(cells, here, j);
        if is_constant(child) {
            out[next] = child as u8;
            next += 1;
            j += 1;
        } else if j + 1 < n {
            next = write_value(file, cells, out, child, next);
            j += 1;
        } else {
            out[next] = constructor_at(cells, child) as u8;
            next += 1;
            here = child;
            n = arity_of(file, cells, here);
            j = 0;
        }
    }
    next
}

// For the crates above: writes the value of a reference to the output's front.
pub fn write(file: &[u8], cells: &[u16], k: usize, out: &mut [u8])
    requires readable { Readable file.now cells.now k }
    requires k_in_bounds { length (bytes_of file.now cells.now k) ≤ length out.old }
    ensures { out.new ≡ front_written (bytes_of file.now cells.now k) out.old }
{
    write_value(&file, cells, out, k, 0);
}
