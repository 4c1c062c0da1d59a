// A list of names as it is lent: bytes laid end to end, and where each name ends in them.
ghost use Rattle.std.specs.Prelude.{◌≡◌};
ghost use Rattle.lookups.specs.Names.{ends_fit};

// Whether the ends are those of names in so many bytes: none falls below the one before it, and none passes the bytes.
pub fn ends_fit(ends: &[u32], size: usize) -> bool
    ensures { result ≡ ends_fit 0 size ends.now }
{
    let mut start = 0;
    for end in ends {
        let end = *end as usize;
        if end < start || size < end {
            return false;
        }
        start = end;
    }
    true
}
