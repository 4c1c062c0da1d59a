// The values of a tree in listing order, which the listing and the sheet share: definitions and laws, and as code what
// is to be listed of a record, `Item`, and the name of a kind.
// The order is specs/Listed, what a record's value is in it specs/Walking; how deep a listed value can lie is
// specs/Levels. Below it stand a record's row (row) and the definitions of a reading (reading).
#![tactic(auto)]

ghost use Rattle.std.specs.Prelude.{◌≡◌};
ghost use Rattle.row.specs.Row.{kind_word};
ghost use Rattle.row.specs.Words.{word};
ghost use Rattle.listed.specs.Walking.{kind_shown};

use row::{Kind, Lent};

// A value that is to be listed: its record, whether it stands under a key, as a Map's child does, and its level.
#[derive(Clone, Copy)]
pub struct Item {
    pub n: u32,
    pub keyed: bool,
    pub level: usize,
}

// The name of the kind of record n's value. A number that stands for no kind counts as Uninitialized's.
// Stays a function: the name is bytes of a lent output that may be too short, of which Display promises nothing.
pub fn kind_name(lent: Lent, n: u32) -> &'static [u8]
    ensures { result.now ≡ kind_shown (word lent.entry.words.now n kind_word) }
{
    match lent.kind(n) {
        Ok(Kind::Map) => b"map",
        Ok(Kind::Sequence) => b"sequence",
        Ok(Kind::String) => b"string",
        Ok(Kind::Null) => b"null",
        Ok(Kind::NoValue) => b"novalue",
        Ok(Kind::Uninitialized) => b"uninit",
        Err(_) => b"uninit",
    }
}
