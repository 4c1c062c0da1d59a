// The text of a record.
ghost use Rattle.std.specs.Prelude.{◌≡◌, ◌<◌};
ghost use Rattle.row.specs.Words.{record_count, word};
ghost use Rattle.row.specs.Row.{next_word};
ghost use Rattle.fields.specs.OnRecords.{Readable, string_text_at, single_text_at, several_at};
ghost use Rattle.fields.specs.OnRecords.{sequence_text_at, text_at, field_at, field_text_at};

use crate::DuplicateKeyBehavior;
use crate::stored::Stored;
use records::siblings;
use refusals::Refusal;
use row::{Kind, Lent};

// Where a text stands in the lent text.
// Stays an offset and a length: C gets them so, and the text is lent to be written again.
#[derive(Clone, Copy)]
pub struct Text {
    pub offset: u32,
    pub len: u32,
}

impl Stored<'_> {
    // The text of a String.
    #[tactic(auto, unfolding(crate::specs::OnRecords::string_text_at))]
    fn string_text(&self, n: u32) -> Result<Text, Refusal>
        ensures { result ≡ string_text_at self.now.lent.words.now self.now.lent.text.now n }
    {
        if !utf8::is_utf8(self.lent.string_part(n)) {
            return Err(Refusal::NotUtf8);
        }
        Ok(Text {
            offset: self.lent.word(n, row::TEXT),
            len: self.lent.word(n, row::TEXT_LEN),
        })
    }

    // The text of a record that is no Sequence: a String's where it is UTF-8, and the empty one of Null and NoValue.
    #[tactic(auto, unfolding(crate::specs::OnRecords::single_text_at))]
    pub(crate) fn single_text(&self, n: u32) -> Result<Text, Refusal>
        ensures { result ≡ single_text_at self.now.lent.words.now self.now.lent.text.now n }
    {
        match self.lent.kind(n) {
            Ok(Kind::String) => self.string_text(n),
            Ok(Kind::Null | Kind::NoValue) => Ok(Text { offset: 0, len: 0 }),
            _ => Err(Refusal::WrongKind),
        }
    }

    // Whether duplicates are refused and an element has a next sibling.
    fn has_several(&self, first: u32, duplicates: DuplicateKeyBehavior) -> bool
        ensures { result ≡ several_at duplicates (word self.now.lent.words.now first next_word) }
    {
        match duplicates {
            DuplicateKeyBehavior::TakeLast => false,
            DuplicateKeyBehavior::Error => self.lent.word(first, row::NEXT) != 0,
        }
    }

    // The text of a Sequence: its last element's (`get_last_string_value` in the source).
    #[tactic(auto, unfolding(crate::specs::OnRecords::sequence_text_at))]
    fn sequence_text(&self, n: u32, duplicates: DuplicateKeyBehavior) -> Result<Text, Refusal>
        requires { n < record_count self.now.lent.words.now }
        ensures { result ≡ sequence_text_at duplicates self.now.lent.words.now self.now.lent.text.now n }
    {
        let first = self.lent.word(n, row::CHILD);
        if first == 0 {
            return Err(Refusal::WrongKind);
        }
        if self.has_several(first, duplicates) {
            return Err(Refusal::SeveralValues);
        }
        self.single_text(siblings::last_child(self.lent.words, n))
    }

    // The text of any record.
    #[tactic(auto, unfolding(crate::specs::OnRecords::text_at))]
    pub(crate) fn read_text(
        &self,
        n: u32,
        duplicates: DuplicateKeyBehavior,
    ) -> Result<Text, Refusal>
        requires { n < record_count self.now.lent.words.now }
        ensures { result ≡ text_at duplicates self.now.lent.words.now self.now.lent.text.now n }
    {
        match self.lent.kind(n) {
            Ok(Kind::Sequence) => self.sequence_text(n, duplicates),
            _ => self.single_text(n),
        }
    }
}

// The text of the field of a name.
pub fn field_text(
    words: &[u32],
    text: &[u8],
    name: &[u8],
    duplicates: DuplicateKeyBehavior,
) -> Result<Text, Refusal>
    requires readable { Readable words.now text.now }
    requires inside { 0 < record_count words.now }
    ensures { result ≡ field_text_at duplicates words.now text.now
        (field_at words.now text.now name.now) }
{
    let tree = Stored {
        lent: Lent { words, text },
    };
    let n = tree.root_field(name)?;
    tree.read_text(n, duplicates)
}
