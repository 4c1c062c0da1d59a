// Finding where a value ends: the first `&`, or the input's end. The source takes byte by byte; here a long value is
// passed by blocks, each looked at as a whole.
ghost use Rattle.std.specs.Prelude.{◌≡◌, ◌≤◌, length};
ghost use Rattle.cursor.specs.Ampersands.{holds_ampersand, FirstAmpersand, Reaches};

// How many bytes a block has.
const BLOCK: usize = 16;

// Whether a block holds `&`. Every byte is looked at, so that the compiler can take them all at once.
fn holds_ampersand(block: &[u8; BLOCK]) -> bool
    ensures { result ≡ holds_ampersand block.now }
{
    let mut holds = false;
    for b in block {
        holds |= *b == b'&';
    }
    holds
}

// From an index on to the first block that holds `&` or doesn't fit.
// Stays beside decode's `plain_blocks`: what they share is the library's chain, and the tests of a block differ.
fn pass_blocks(input: &[u8], start: usize) -> usize
    requires { start ≤ length input.now }
    ensures { Reaches input.now start result }
{
    let (blocks, _) = input[start..].as_chunks::<BLOCK>();
    let passed = blocks
        .iter()
        .take_while(|block| !holds_ampersand(block))
        .count();
    start + BLOCK * passed
}

// The first `&` from an index on and before another, or the other.
fn first_ampersand(input: &[u8], start: usize, limit: usize) -> usize
    requires { (start ≤ limit) × (limit ≤ length input.now) }
    ensures { FirstAmpersand input.now start limit result }
{
    match input[start..limit].iter().position(|b| *b == b'&') {
        Some(passed) => start + passed,
        None => limit,
    }
}

// Where the value that starts at a place ends: byte by byte over the first block, so that a short value costs little,
// and over the last; by blocks in between.
pub fn value_end(input: &[u8], place: usize) -> usize
    requires { place ≤ length input.now }
    ensures { FirstAmpersand input.now place (length input.now) result }
{
    let len = input.len();
    if len - place < BLOCK {
        return first_ampersand(input, place, len);
    }
    let near = first_ampersand(input, place, place + BLOCK);
    if near < place + BLOCK {
        return near;
    }
    first_ampersand(input, pass_blocks(input, near), len)
}
