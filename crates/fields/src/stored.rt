// A tree as it is stored: the records and the text that an accepted reading leaves.
ghost use Rattle.std.specs.Prelude.{◌≡◌, ◌<◌};
ghost use Rattle.row.specs.Words.{record_count, word};
ghost use Rattle.row.specs.Row.{key_kind_word};
ghost use Rattle.row.specs.Kinds.{KeyKindOf};
ghost use Rattle.records.specs.Siblings.{children, Linked};
ghost use Rattle.records.specs.Walks.{left};
ghost use Rattle.fields.specs.Props.{Linked-prop};

use records::siblings::Siblings;
use row::{KeyKind, Lent, UnknownKind};

// The lent words and text of a tree, which has a root, and whose lists of children end.
#[derive(Clone, Copy)]
pub(crate) struct Stored<'a> {
    pub lent: Lent<'a>,
    ghost linked: { Linked lent.words.now (record_count lent.words.now) } by { Linked-prop _ _ },
    ghost rooted: { 0 < record_count lent.words.now },
}

impl<'a> Stored<'a> {
    // The kind of record n's key.
    pub fn key_kind(&self, n: u32) -> Result<KeyKind, UnknownKind>
        ensures { KeyKindOf (word self.now.lent.words.now n key_kind_word) result }
    {
        KeyKind::try_from(self.lent.word(n, row::KEY_KIND))
    }

    // The children of record n.
    pub fn children(&self, n: u32) -> Siblings<'a>
        requires { n < record_count self.now.lent.words.now }
        ensures { left result ≡ children self.now.lent.words.now n }
    {
        Siblings::children(self.lent.words, n)
    }
}
