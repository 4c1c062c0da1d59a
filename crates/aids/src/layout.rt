// Where the aids stand. Behind the records below them stands a word for the parent of each, which is not free; then the
// slots, a word for each record; then the head; then the order of the blocks, which grows upwards. The blocks grow
// downwards from the end of the words.
ghost use Rattle.std.specs.Prelude.{◌≡◌, ◌+◌, ◌*◌, ◌<◌, ◌^◌};
ghost use Rattle.aids.specs.Kept.{free_from};

// The words of the head: how many blocks there are; how the last key was looked for; its spot among the fingers, which
// is an entry of the order and a place in its block; and the child from which it was walked far.
pub(crate) const BLOCKS: usize = 0;

pub(crate) const WAY: usize = 1;

pub(crate) const ENTRY: usize = 2;

pub(crate) const PLACE: usize = 3;

pub(crate) const FAR: usize = 4;

const HEAD_WORDS: usize = 8;

// An entry of the order: the tag from which on its block has fingers (two words), their parent, the block's number.
pub(crate) const PARENT: usize = 2;

pub(crate) const BLOCK: usize = 3;

pub(crate) const ENTRY_WORDS: usize = 4;

// A block: tags (two words each), children, and how many there are.
pub(crate) const MOST: u32 = 32;

pub(crate) const HALF: u32 = 16;

pub(crate) const CHILDREN: usize = 64;

pub(crate) const COUNT: usize = 96;

const BLOCK_WORDS: usize = 97;

// Where the free words start.
pub(crate) fn free_from(aids: u32) -> usize
    ensures { result ≡ free_from aids }
{
    aids as usize * (row::WIDTH + 1)
}

// The slot of a record.
pub(crate) fn slot_at(aids: u32, n: u32) -> usize {
    free_from(aids) + n as usize
}

// A word of the head.
pub(crate) fn head_at(aids: u32, w: usize) -> usize
    requires { w < 8 }
{
    free_from(aids) + aids as usize + w
}

// An entry of the order.
pub(crate) fn entry_at(aids: u32, i: u32) -> usize
    ensures { result < 2 ^ 40 }
{
    free_from(aids) + aids as usize + HEAD_WORDS + i as usize * ENTRY_WORDS
}

// A block, at 0 where the words don't reach.
// Stays a number: what is proposed may be anything, so a place without a block needs no case of its own.
pub(crate) fn block_at(words: &[u32], id: u32) -> usize
    ensures { result + 97 < 2 ^ 64 }
{
    let n = (id as usize + 1) * BLOCK_WORDS;
    if n <= words.len() {
        return words.len() - n;
    }
    0
}

// Whether there is room for one more block and its entry.
pub(crate) fn has_room(words: &[u32], aids: u32, id: u32) -> bool {
    entry_at(aids, id) + ENTRY_WORDS + (id as usize + 1) * BLOCK_WORDS <= words.len()
}
