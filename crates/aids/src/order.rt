// The order of the blocks: an entry for each, by the parent of its fingers and its first tag.
ghost use Rattle.std.specs.Prelude.{◌+◌, ◌<◌, ◌^◌};
ghost use Rattle.aids.specs.Kept.{free_from, Kept};

use crate::{Among, blocks, free, halving, keys, layout};

// How many blocks there are.
pub(crate) fn count(words: &[u32], aids: u32) -> u32
    ensures { result < 2 ^ 31 }
{
    let n = free::read(words, layout::head_at(aids, layout::BLOCKS));
    if n < 2147483648 {
        return n;
    }
    0
}

// Whether there is room for one more block.
pub(crate) fn has_room(words: &[u32], aids: u32) -> bool {
    layout::has_room(words, aids, count(words, aids))
}

// The parent of an entry's fingers.
pub(crate) fn parent(words: &[u32], aids: u32, entry: u32) -> u32 {
    free::read(words, layout::entry_at(aids, entry) + layout::PARENT)
}

// The block of an entry.
pub(crate) fn block(words: &[u32], aids: u32, entry: u32) -> usize
    ensures { result + 97 < 2 ^ 64 }
{
    layout::block_at(
        words,
        free::read(words, layout::entry_at(aids, entry) + layout::BLOCK),
    )
}

// Whether an entry stands at a tag of the parent or before it. Kept by hand, not as two tuples compared: no branch
// depends on it, since where a search goes is hard to foretell.
fn is_not_above(words: &[u32], among: Among, entry: u32, tag: u64) -> bool {
    let at = layout::entry_at(among.aids, entry);
    let parent = free::read(words, at + layout::PARENT);
    let own = free::read_tag(words, at);
    (parent < among.parent) | ((parent == among.parent) & (own <= tag))
}

// The last entry that is not above a tag of the parent, or the first.
pub(crate) fn find(words: &[u32], among: Among, tag: u64) -> u32
    ensures { result < 2 ^ 31 }
{
    halving::last_held(count(words, among.aids), |entry| {
        is_not_above(words, among, entry, tag)
    })
}

// Whether an entry stands at a key of the parent or before it.
fn is_not_after(
    words: &[u32],
    text: &[u8],
    among: Among,
    entry: u32,
    tag: u64,
    name: &[u8],
) -> bool {
    let own = free::read_tag(words, layout::entry_at(among.aids, entry));
    if own == tag && parent(words, among.aids, entry) == among.parent {
        let first = blocks::child(words, block(words, among.aids, entry), 0);
        return keys::is_not_after(words, text, first, tag, name);
    }
    is_not_above(words, among, entry, tag)
}

// The last entry that is not after a key of the parent, or the first.
pub(crate) fn find_tied(words: &[u32], text: &[u8], among: Among, tag: u64, name: &[u8]) -> u32 {
    halving::last_held(count(words, among.aids), |entry| {
        is_not_after(words, text, among, entry, tag, name)
    })
}

// Puts an entry for one more block at a place of the order.
pub(crate) fn insert(words: &mut [u32], among: Among, place: u32, tag: u64)
    ensures { Kept (free_from among.aids) words.old words.new }
{
    let aids = among.aids;
    let id = count(words, aids);
    let at = layout::entry_at(aids, place);
    free::move_up(
        words,
        aids,
        at,
        layout::entry_at(aids, id),
        layout::ENTRY_WORDS,
    );
    free::write_tag(words, aids, at, tag);
    free::write(words, aids, at + layout::PARENT, among.parent);
    free::write(words, aids, at + layout::BLOCK, id);
    free::write(words, aids, layout::head_at(aids, layout::BLOCKS), id + 1);
}
