// At most four references copied, one after the other: for so few a loop is dearer, and copy_from_slice and copy_within, tried and
// measured, take 2 to 3 nanoseconds more for each copy.
ghost use Rattle.std.specs.Prelude.{◌+◌, ◌≤◌, length};
ghost use Rattle.store.specs.Cells.{refs, RefsPut};

// For the crates above: copies n numbers of a slice to a place of another.
pub fn copy(from: &[u16], at: usize, out: &mut [u16], to: usize, n: usize)
    requires { (at + n ≤ length from.now) × (to + n ≤ length out.old) × (n ≤ 4) }
    ensures { RefsPut to (refs from.now at n) out.old out.new }
{
    if n == 0 {
        return;
    }
    out[to] = from[at];
    if n == 1 {
        return;
    }
    out[to + 1] = from[at + 1];
    if n == 2 {
        return;
    }
    out[to + 2] = from[at + 2];
    if n == 3 {
        return;
    }
    out[to + 3] = from[at + 3];
}

// For the crates above: copies n numbers of a slice to a later place of it.
pub fn copy_within(s: &mut [u16], at: usize, to: usize, n: usize)
    requires { (at + n ≤ to) × (to + n ≤ length s.old) × (n ≤ 4) }
    ensures { RefsPut to (refs s.old at n) s.old s.new }
{
    if n == 0 {
        return;
    }
    s[to] = s[at];
    if n == 1 {
        return;
    }
    s[to + 1] = s[at + 1];
    if n == 2 {
        return;
    }
    s[to + 2] = s[at + 2];
    if n == 3 {
        return;
    }
    s[to + 3] = s[at + 3];
}
