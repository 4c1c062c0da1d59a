// The fingers of a block, in the order of their keys.
ghost use Rattle.std.specs.Prelude.{◌+◌, ◌≤◌, ◌<◌, ◌^◌};
ghost use Rattle.aids.specs.Kept.{free_from, Kept};

use crate::{free, halving, keys, layout};

// How many fingers a block has.
// Stays a clause, that b leaves room for a block: a struct for one number would be made anew at each call.
pub(crate) fn count(words: &[u32], b: usize) -> u32
    requires { b + 97 < 2 ^ 64 }
    ensures { result ≤ 32 }
{
    free::read(words, b + layout::COUNT).min(layout::MOST)
}

// The tag of a finger.
pub(crate) fn tag(words: &[u32], b: usize, i: u32) -> u64
    requires { (b + 97 < 2 ^ 64) × (i < 32) }
{
    free::read_tag(words, b + 2 * i as usize)
}

// The child of a finger.
pub(crate) fn child(words: &[u32], b: usize, i: u32) -> u32
    requires { (b + 97 < 2 ^ 64) × (i < 32) }
{
    free::read(words, b + layout::CHILDREN + i as usize)
}

// How many fingers of a block have a tag that is not above the tag.
pub(crate) fn count_not_above(words: &[u32], b: usize, tag_sought: u64) -> u32
    requires { b + 97 < 2 ^ 64 }
    ensures { result ≤ 32 }
{
    halving::count_held(count(words, b), |i| tag(words, b, i) <= tag_sought)
}

// Whether a finger stands at a key or before it.
fn is_not_after(words: &[u32], text: &[u8], b: usize, i: u32, tag_sought: u64, name: &[u8]) -> bool
    requires { (b + 97 < 2 ^ 64) × (i < 32) }
{
    let own = tag(words, b, i);
    if own == tag_sought {
        return keys::is_not_after(words, text, child(words, b, i), tag_sought, name);
    }
    own < tag_sought
}

// How many fingers of a block stand at a key or before it.
pub(crate) fn count_not_after(
    words: &[u32],
    text: &[u8],
    b: usize,
    tag_sought: u64,
    name: &[u8],
) -> u32
    requires { b + 97 < 2 ^ 64 }
    ensures { result ≤ 32 }
{
    halving::count_held(count(words, b), |i| {
        is_not_after(words, text, b, i, tag_sought, name)
    })
}

// Puts a finger at a place of a block, which has room.
pub(crate) fn put(words: &mut [u32], aids: u32, b: usize, place: u32, tag: u64, child: u32)
    requires { b + 97 < 2 ^ 64 }
    ensures { Kept (free_from aids) words.old words.new }
{
    let n = count(words, b);
    if n < layout::MOST && place <= n {
        let tags = b + 2 * place as usize;
        let children = b + layout::CHILDREN + place as usize;
        free::move_up(words, aids, tags, b + 2 * n as usize, 2);
        free::write_tag(words, aids, tags, tag);
        free::move_up(words, aids, children, b + layout::CHILDREN + n as usize, 1);
        free::write(words, aids, children, child);
        free::write(words, aids, b + layout::COUNT, n + 1);
    }
}

// Fills a new block with one finger.
pub(crate) fn begin(words: &mut [u32], aids: u32, b: usize, tag: u64, child: u32)
    requires { b + 97 < 2 ^ 64 }
    ensures { Kept (free_from aids) words.old words.new }
{
    free::write(words, aids, b + layout::COUNT, 0);
    put(words, aids, b, 0, tag, child);
}

// Moves the upper half of a full block to a new one.
pub(crate) fn halve(words: &mut [u32], aids: u32, from: usize, to: usize)
    requires { (from + 97 < 2 ^ 64) × (to + 97 < 2 ^ 64) }
    ensures { Kept (free_from aids) words.old words.new }
{
    let half = layout::HALF as usize;
    let children = from + layout::CHILDREN + half;
    free::copy(words, aids, from + 2 * half, to, 2 * half);
    free::copy(words, aids, children, to + layout::CHILDREN, half);
    free::write(words, aids, to + layout::COUNT, layout::HALF);
    free::write(words, aids, from + layout::COUNT, layout::HALF);
}
