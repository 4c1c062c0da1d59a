// What needs no decoding at the front, in blocks of sixteen bytes.
ghost use Rattle.std.specs.Prelude.{◌≡◌};
ghost use Rattle.decode.specs.Laying.{PlainTo};
ghost use Rattle.decode.specs.Shown.{all_plain};

use crate::is_plain_byte;

// Whether a block holds neither '+' nor '%'. All of its bytes are looked at, so that they are compared at once.
fn is_plain_block(block: &[u8; 16]) -> bool
    ensures { result ≡ all_plain block.now }
{
    let mut plain = true;
    for b in block {
        plain &= is_plain_byte(*b);
    }
    plain
}

// How many bytes at the front hold neither '+' nor '%', as far as blocks of sixteen tell: up to the first block that
// holds one, or to where no block is left.
pub(crate) fn plain_blocks(raw: &[u8]) -> usize
    ensures { PlainTo raw.now result }
{
    let (blocks, _) = raw.as_chunks::<16>();
    16 * blocks
        .iter()
        .take_while(|block| is_plain_block(block))
        .count()
}
