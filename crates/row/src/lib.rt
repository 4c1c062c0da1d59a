// A record's row: how wide it is, in which word a thing stands, and the kinds with their numbers; and the lent words
// and text by it. Its numbers are specs/Row, and `word` (specs/Words) is a word of a record. All that reads or writes a
// record stands on it.
// Nothing stands below it.
#![tactic(auto)]

ghost use Rattle.std.specs.Prelude.{◌≡◌, ◌<◌, leb};
ghost use Rattle.row.specs.Row.{record_width};
ghost use Rattle.row.specs.Words.{record_count, word, with_word, text_part};

pub use kind::{KeyKind, Kind, UnknownKind};
pub use lent::Lent;

mod kind; // the kinds of values and keys, and their numbers
mod lent; // lent words and text, read together

// A record's width in words.
pub const WIDTH: usize = 8;

// The words of a record, by their numbers.
// Stay numbers: they are places of words, which C reads too (include/qs.h), and no kinds.
pub const KIND: usize = 0;

pub const KEY_KIND: usize = 1;

pub const KEY: usize = 2;

pub const KEY_LEN: usize = 3;

pub const TEXT: usize = 4;

pub const TEXT_LEN: usize = 5;

pub const CHILD: usize = 6;

pub const NEXT: usize = 7;

// Whether the words make so many records.
pub fn has_room(words: &[u32], count: u32) -> bool
    ensures { result ≡ leb count (record_count words.now) }
{
    count as usize <= words.len() / WIDTH
}

// Word w of record n, which is one of the words' records.
#[tactic(auto, unfolding(crate::specs::Words::word))]
pub fn get_word(words: &[u32], n: u32, w: usize) -> u32
    requires { (n < record_count words.now) × (w < record_width) }
    ensures { result ≡ word words.now n w }
{
    words[n as usize * WIDTH + w]
}

// Word w of record n, or 0 past the words' end: for words that may be any. (Stays beside `get_word`, which asks for the
// record and so tests nothing: one of both would test on the reader's hot path.)
#[tactic(auto, unfolding(crate::specs::Words::word))]
pub fn word_or_zero(words: &[u32], n: u32, w: usize) -> u32
    requires { w < record_width }
    ensures { result ≡ word words.now n w }
{
    words.get(n as usize * WIDTH + w).copied().unwrap_or(0)
}

// Makes x word w of record n. Nothing else changes.
#[tactic(auto, unfolding(crate::specs::Words::with_word))]
pub fn set_word(words: &mut [u32], n: u32, w: usize, x: u32)
    requires { (n < record_count words.old) × (w < record_width) }
    ensures { words.new ≡ with_word words.old n w x }
{
    words[n as usize * WIDTH + w] = x;
}

// The text at an offset, as much of its length as there is.
pub fn text_part<'a>(text: &'a [u8], offset: u32, len: u32) -> &'a [u8]
    ensures { result.now ≡ text_part text.now offset len }
{
    let rest = text.get(offset as usize..).unwrap_or(&[]);
    &rest[..rest.len().min(len as usize)]
}
