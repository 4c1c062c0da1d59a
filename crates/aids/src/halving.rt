// A search by halving.
ghost use Rattle.std.specs.Prelude.{ℕ, ◌≤◌, ◌<◌};

// Kept a loop: what is searched is no slice, which `partition_point` asks for.
// The last of some places of which it holds, or the first, where it holds of none behind one of which it doesn't.
pub(crate) fn last_held<F: Fn(u32) -> bool>(count: u32, holds: F) -> u32
    requires { (n : ℕ) → n < count → F.pre holds n }
    ensures within { result ≤ count }
    ensures below { 0 < count → result < count }
{
    let mut low = 0;
    let mut n = count;
    while 1 < n {
        let half = n / 2;
        low = if holds(low + half) { low + half } else { low };
        n -= half;
    }
    low
}

// How many of the places it holds of.
pub(crate) fn count_held<F: Fn(u32) -> bool>(count: u32, holds: F) -> u32
    requires { (n : ℕ) → n < count → F.pre holds n }
    ensures { result ≤ count }
{
    if count == 0 {
        return 0;
    }
    let last = last_held(count, &holds);
    if holds(last) { last + 1 } else { last }
}
