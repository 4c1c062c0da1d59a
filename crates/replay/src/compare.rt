// What a reading answers and leaves, against what is stored of it.
use crate::stored;
use crate::stored::Case;
use reading::Reading;

// What each element of the lent slices holds before a reading.
const BEFORE: u8 = 7;

// Sets every word and every byte of the text to what it holds before a reading.
pub(crate) fn fill(words: &mut [u32], text: &mut [u8]) {
    words.fill(u32::from(BEFORE));
    text.fill(BEFORE);
}

// Whether the words are those that the bytes begin with, four bytes a word, lowest byte first.
fn same_words(words: &[u32], bytes: &[u8]) -> bool {
    let (stored, _) = bytes.as_chunks::<4>();
    words.len() <= stored.len()
        && words
            .iter()
            .zip(stored)
            .all(|(word, bytes)| *word == u32::from_le_bytes(*bytes))
}

// Whether the words begin with the used ones, which `left` begins with, and are zero from there on.
fn leaves_words(used: usize, left: &[u8], words: &[u32]) -> bool {
    let Some((used, unused)) = words.split_at_checked(used) else {
        return false;
    };
    same_words(used, left) && unused.iter().all(|word| *word == 0)
}

// Whether the text begins with the used bytes, which `left` holds from a place on, and is zero from there on.
fn leaves_text(used: usize, left: &[u8], from: usize, text: &[u8]) -> bool {
    let Some(left) = left.get(from..) else {
        return false;
    };
    let Some((used, unused)) = text.split_at_checked(used) else {
        return false;
    };
    left.starts_with(used) && unused.iter().all(|byte| *byte == 0)
}

// Whether no element was changed.
fn untouched(words: &[u32], text: &[u8]) -> bool {
    words.iter().all(|word| *word == u32::from(BEFORE)) && text.iter().all(|byte| *byte == BEFORE)
}

// Whether words and text are as the case has to leave them: as before under numbers 1 to 3, else the used ones, which
// `left` holds, and zeros.
fn leaves(case: Case, left: &[u8], words: &[u32], text: &[u8]) -> bool {
    let answer = case.answer;
    if matches!(answer.number, 1..=3) {
        return untouched(words, text);
    }
    let records = answer.records as usize;
    leaves_words(row::WIDTH * records, left, words)
        && leaves_text(answer.bytes as usize, left, stored::RECORD * records, text)
}

// Whether a reading answers what the case has to, and leaves words and text so.
pub(crate) fn as_stored(
    case: Case,
    answer: Reading,
    left: &[u8],
    words: &[u32],
    text: &[u8],
) -> bool {
    case.answer == answer && leaves(case, left, words, text)
}
