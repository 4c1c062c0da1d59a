// Percent decoding of a raw segment, as the source's src/de/parse/decode.rs has it: `decode`, the iterator `Decoder`,
// and `shown`, which stands in for the source's `Cow`. Definitions: specs/Decoding and specs/Shown.
// specs/Agreement compares decoding with WHATWG's, and specs/ShownAfter tells what is shown after it.
// Below it stands `laws`.
#![tactic(auto)]

ghost use Rattle.std.specs.Prelude.{◌≡◌, IfSome, ⊤, leb, length};
ghost use Rattle.std.specs.Iterator.{MakesProgress, YieldsFirst, item_count};
ghost use Rattle.decode.specs.Decoding.{decoded, plus_to_space, answer, written};
ghost use Rattle.decode.specs.Stepping.{bytes_left, Shortens};
ghost use Rattle.decode.specs.Shown.{plain_byte, all_plain, shown_of};

use blocks::plain_blocks;
use escapes::{Escape, escape_of};

mod blocks; // what needs no decoding at the front
mod escapes; // what stands at a '%'
mod writing; // the decoded bytes written

// The decoding of raw bytes, one byte at a time: what is still to be read, and how many bytes of it a failed escape
// swallows unchanged.
#[derive(Clone, Copy)]
pub struct Decoder<'a> {
    pub raw: &'a [u8],
    pub keep: usize,
}

impl<'a> Decoder<'a> {
    pub fn new(raw: &'a [u8]) -> Decoder<'a>
        ensures { bytes_left result ≡ decoded raw.now }
    {
        Decoder { raw, keep: 0 }
    }
}

impl Iterator for Decoder<'_> {
    type Item = u8;

    ghost next_gives = { YieldsFirst bytes_left };

    ghost remaining = { item_count bytes_left };

    fn next(&mut self) -> Option<u8>
        ensures steps { YieldsFirst bytes_left self.old result self.new }
        ensures goes { MakesProgress (λ d. ⊤) (item_count bytes_left) self.old result self.new }
        ensures shorter { IfSome result (λ b. Shortens self.old.raw.now self.new.raw.now) }
    {
        let (&b, after) = self.raw.split_first()?;
        self.raw = after;
        if 0 < self.keep {
            self.keep -= 1;
            return Some(b);
        }
        if b != b'%' {
            return Some(plus_to_space(b));
        }
        match escape_of(after) {
            Escape::Byte(named) => {
                self.raw = &after[2..];
                Some(named)
            }
            Escape::Kept(count) => {
                self.keep = count;
                Some(b)
            }
        }
    }
}

// The byte itself, but a space for a '+'.
fn plus_to_space(b: u8) -> u8
    ensures { result ≡ plus_to_space b }
{
    if b == b'+' { b' ' } else { b }
}

// Whether the decoded bytes are at most `size`. Decoding never lengthens, so raw bytes that fit need no count.
pub fn fits(raw: &[u8], size: usize) -> bool
    ensures { result ≡ leb (length (decoded raw.now)) size }
{
    raw.len() <= size || Decoder::new(raw).count() <= size
}

// Whether a byte is its own decoding, wherever it stands.
fn is_plain_byte(b: u8) -> bool
    ensures { result ≡ plain_byte b }
{
    (b != b'+') & (b != b'%')
}

// Whether the bytes hold neither '+' nor '%': then they are their own decoding.
pub fn is_plain(raw: &[u8]) -> bool
    ensures { result ≡ all_plain raw.now }
{
    let at = plain_blocks(raw);
    raw[at..].iter().all(|b| is_plain_byte(*b))
}

// Decodes `raw` into `out` and answers how many bytes it wrote; the bytes behind them stay as they were. If there is no
// room for all, it writes none and answers `None`.
pub fn decode(raw: &[u8], out: &mut [u8]) -> Option<usize>
    ensures answer { result ≡ answer raw.now out.old }
    ensures output { out.new ≡ written raw.now out.old }
{
    if fits(raw, out.len()) {
        Some(writing::write(raw, out))
    } else {
        None
    }
}

// What a caller is shown: `raw` where it is its own decoding, else the front of `decoded`, in the length that was
// answered, or all where there is less. specs/ShownAfter tells what that is after `decode` of `raw`.
pub fn shown<'a>(raw: &'a [u8], decoded: &'a [u8], answer: Option<usize>) -> &'a [u8]
    ensures { result.now ≡ shown_of raw.now decoded.now answer }
{
    if is_plain(raw) {
        return raw;
    }
    let n = answer.unwrap_or(0);
    decoded.get(..n).unwrap_or(decoded)
}
