// A key's first bytes as a number, by which most keys are told apart, and bytes compared.
// Definitions: specs/Tags. That the order of the numbers is the order of the keys is proofs/Heads and proofs/KeyTags.
// Below it stand the keys and their order (key), and laws.
#![tactic(auto)]

ghost use Rattle.std.specs.Prelude.{◌≡◌, true, length, take, drop};
ghost use Prim.Native.Nat.{Ordering as NatOrdering};
ghost use Prim.Native.Nat.{◌+◌, ◌≤◌};
ghost use Rattle.key.specs.KeyOrder.{compare_bytes};
ghost use Rattle.tags.specs.Tags.{ordering_of, head_of};

use std::cmp::Ordering;

// The least tag of a String, 2 ^ 63. Every Int is below it.
pub const STRING_TAG: u64 = 1 << 63;

// The first eight bytes as a number, with zeros for those that are missing: from the last byte to the first, for fewer
// than eight.
fn short_head(bytes: &[u8]) -> u64
    ensures { result ≡ head_of bytes.now }
{
    bytes
        .iter()
        .rev()
        .fold(0, |head, b| head / 256 + *b as u64 * 72057594037927936)
}

// The first eight of `len` bytes as a number, with zeros for those that are missing. Where eight stand in the slice,
// they are read at once, and the low ones are cut off.
pub fn head(s: &[u8], start: usize, len: usize) -> u64
    requires { start + len ≤ length s.now }
    ensures { result ≡ head_of (take len (drop start s.now)) }
{
    let Some(first) = s[start..].first_chunk::<8>() else {
        return short_head(&s[start..start + len]);
    };
    let x = u64::from_be_bytes(*first);
    if 8 <= len {
        return x;
    }
    if len == 0 {
        return 0;
    }
    let cut = 64 - 8 * len;
    (x >> cut) << cut
}

// The order of two slices of bytes.
pub fn compare_bytes(a: &[u8], b: &[u8]) -> Ordering
    ensures { ordering_of result ≡ compare_bytes a.now b.now }
{
    a.cmp(&b)
}

// Whether two slices have the same bytes, which are compared one by one: a few that were just written are read so
// without waiting for them.
pub fn same_bytes(a: &[u8], b: &[u8]) -> bool
    ensures { result ≡ true → compare_bytes a.now b.now ≡ NatOrdering.eq }
{
    a.len() == b.len() && a.iter().zip(b).all(|(x, y)| x == y)
}
