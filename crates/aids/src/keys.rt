// Records that are proposed, of which nothing is known: their keys, and the records behind them. A key that isn't in
// the text counts as empty.
ghost use Rattle.std.specs.Prelude.{◌+◌, ◌≤◌, ◌<◌, length};

use crate::free;

// Word w of record n, or 0 past the end.
fn word(words: &[u32], n: u32, w: usize) -> u32
    requires { w < 8 }
{
    free::read(words, n as usize * row::WIDTH + w)
}

// The next sibling of record n.
pub(crate) fn next(words: &[u32], n: u32) -> u32 {
    word(words, n, row::NEXT)
}

// Where the text of a String key of record n starts, and where it ends; 0 and 0 where there is none.
#[derive(Clone, Copy)]
pub(crate) struct Part {
    pub start: usize,
    pub end: usize,
}

// Stays without an Option: a key that is no String of the text counts as the empty one, and each caller takes it so.
pub(crate) fn part_of(words: &[u32], text: &[u8], n: u32) -> Part
    ensures { (result.start ≤ result.end) × (result.end ≤ length text.now) }
{
    let start = word(words, n, row::KEY) as usize;
    let end = start + word(words, n, row::KEY_LEN) as usize;
    match row::KeyKind::try_from(word(words, n, row::KEY_KIND)) {
        Ok(row::KeyKind::String) if end <= text.len() => Part { start, end },
        _ => Part { start: 0, end: 0 },
    }
}

// Half a head fits above the Ints.
fn string_tag(head: u64) -> u64 {
    tags::STRING_TAG + head / 2
}

// The tag of record n's key.
// Stays beside records' `tag_at`, which asks that the record and its text are there: a proposed one may be any.
pub(crate) fn tag(words: &[u32], text: &[u8], n: u32) -> u64 {
    if let Ok(row::KeyKind::Int) = row::KeyKind::try_from(word(words, n, row::KEY_KIND)) {
        return u64::from(word(words, n, row::KEY));
    }
    let part = part_of(words, text, n);
    string_tag(tags::head(text, part.start, part.end - part.start))
}

// Whether record n's key, whose tag is that of a key, stands at that key or before it.
pub(crate) fn is_not_after(words: &[u32], text: &[u8], n: u32, tag: u64, name: &[u8]) -> bool {
    if tag < tags::STRING_TAG {
        return true;
    }
    let part = part_of(words, text, n);
    let start = part.start;
    let end = part.end;
    tags::compare_bytes(&text[start..end], name).is_le()
}
