// Lent words and text, read together. The words may be any: past their end a word is 0, and of a text that reaches past
// the lent one there is as much as it holds.
ghost use Rattle.std.specs.Prelude.{◌≡◌, ◌<◌};
ghost use Rattle.row.specs.Row.{record_width, kind_word};
ghost use Rattle.row.specs.Words.{word, key_part, string_part};
ghost use Rattle.row.specs.Kinds.{KindOf, IntKeyOf, StringOf};

use crate::{KeyKind, Kind, UnknownKind};

#[derive(Clone, Copy)]
pub struct Lent<'a> {
    pub words: &'a [u32],
    pub text: &'a [u8],
}

impl<'a> Lent<'a> {
    // Word w of record n.
    pub fn word(self, n: u32, w: usize) -> u32
        requires { w < record_width }
        ensures { result ≡ word self.entry.words.now n w }
    {
        crate::word_or_zero(self.words, n, w)
    }

    // The kind of record n's value.
    pub fn kind(self, n: u32) -> Result<Kind, UnknownKind>
        ensures { KindOf (word self.entry.words.now n kind_word) result }
    {
        Kind::try_from(self.word(n, crate::KIND))
    }

    // The value of record n's key where it is an Int.
    pub fn int_key(self, n: u32) -> Option<u32>
        ensures { IntKeyOf self.entry.words.now n result }
    {
        match KeyKind::try_from(self.word(n, crate::KEY_KIND)) {
            Ok(KeyKind::Int) => Some(self.word(n, crate::KEY)),
            _ => None,
        }
    }

    // The text of record n's key.
    pub fn key_part(self, n: u32) -> &'a [u8]
        ensures { result.now ≡ key_part self.entry.words.now self.entry.text.now n }
    {
        crate::text_part(
            self.text,
            self.word(n, crate::KEY),
            self.word(n, crate::KEY_LEN),
        )
    }

    // The text of record n's String.
    pub fn string_part(self, n: u32) -> &'a [u8]
        ensures { result.now ≡ string_part self.entry.words.now self.entry.text.now n }
    {
        crate::text_part(
            self.text,
            self.word(n, crate::TEXT),
            self.word(n, crate::TEXT_LEN),
        )
    }

    // The text of record n's value where it is a String.
    pub fn string(self, n: u32) -> Option<&'a [u8]>
        ensures { StringOf self.entry.words.now self.entry.text.now n result }
    {
        match self.kind(n) {
            Ok(Kind::String) => Some(self.string_part(n)),
            _ => None,
        }
    }
}
