// Words, read wherever they are and written only where they are free.
ghost use Rattle.std.specs.Prelude.{◌≡◌, true, ◌+◌, ◌≤◌, length};
ghost use Rattle.aids.specs.Kept.{free_from, Kept};

use crate::layout;

// The word at an index, or 0 past the end.
pub(crate) fn read(words: &[u32], i: usize) -> u32 {
    words.get(i).copied().unwrap_or(0)
}

// Makes x the word at an index, if that is free.
pub(crate) fn write(words: &mut [u32], aids: u32, i: usize, x: u32)
    ensures { Kept (free_from aids) words.old words.new }
{
    if layout::free_from(aids) <= i && i < words.len() {
        words[i] = x;
    }
}

// The tag in the two words from an index on, the low one first, or 0 past the end.
pub(crate) fn read_tag(words: &[u32], i: usize) -> u64 {
    match words.get(i..) {
        Some([low, high, ..]) => u64::from(*low) + u64::from(*high) * 4294967296,
        _ => 0,
    }
}

// Writes a tag to the two words from an index on, if they are free.
pub(crate) fn write_tag(words: &mut [u32], aids: u32, i: usize, tag: u64)
    ensures { Kept (free_from aids) words.old words.new }
{
    if i < words.len() {
        write(words, aids, i, (tag % 4294967296) as u32);
        write(words, aids, i + 1, (tag / 4294967296) as u32);
    }
}

// Whether the words reach so far behind an index.
fn reaches(words: &[u32], i: usize, count: usize) -> bool
    ensures { result ≡ true → i + count ≤ length words.now }
{
    i <= words.len() && count <= words.len() - i
}

// Moves the words from one index to another up by so many, if they are free.
pub(crate) fn move_up(words: &mut [u32], aids: u32, low: usize, high: usize, by: usize)
    ensures { Kept (free_from aids) words.old words.new }
{
    if layout::free_from(aids) <= low && low <= high && reaches(words, high, by) {
        words.copy_within(low..high, low + by);
    }
}

// Copies so many words from one index on to another on, if those are free.
pub(crate) fn copy(words: &mut [u32], aids: u32, from: usize, to: usize, count: usize)
    ensures { Kept (free_from aids) words.old words.new }
{
    if layout::free_from(aids) <= to && reaches(words, to, count) && reaches(words, from, count) {
        words.copy_within(from..from + count, to);
    }
}
