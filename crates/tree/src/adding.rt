// A value added at a record.
ghost use Rattle.std.specs.Prelude.{◌≡◌, ◌+◌, ◌<◌, ◌^◌, length};
ghost use Rattle.reading.specs.Leaves.{leaf_of};
ghost use Rattle.tree.specs.NewValues.{new_value_words};
ghost use Rattle.tree.specs.Stored.{SomeStoredAt};
ghost use Rattle.tree.specs.Commands.{Performs, appends, stays, Countable, AddsAtMost};

use crate::{Here, laying};
use indexed::appending;
use reading::LeafKind;
use records::store::ValueWords;
use refusals::Refusal;
use row::Kind;

// The words of a value whose text, if it has any, is laid at an offset with a length.
fn value_words(kind: LeafKind, offset: u32, len: u32) -> ValueWords
    ensures { result ≡ new_value_words kind offset len }
{
    match kind {
        LeafKind::Null => ValueWords {
            kind: Kind::Null.into(),
            offset: 0,
            len: 0,
        },
        LeafKind::NoValue => ValueWords {
            kind: Kind::NoValue.into(),
            offset: 0,
            len: 0,
        },
        LeafKind::String => ValueWords {
            kind: Kind::String.into(),
            offset,
            len,
        },
    }
}

// Adds a value at the record, by the rule of Adding. The text comes first: where it doesn't fit, the rule runs all the
// same, to tell whether the records are too few, which is the refusal then. After a refusal what the words and the
// text hold is free.
pub fn append_value(
    words: &mut [u32],
    text: &mut [u8],
    here: Here,
    kind: LeafKind,
    value: &[u8],
) -> Result<Here, Refusal>
    requires stored { SomeStoredAt words.old text.old here }
    requires countable { Countable here 2 (length value.now) }
    ensures performs { Performs words.old text.old words.new text.new
        here (appends (leaf_of kind value.now)) stays result }
    ensures adds { AddsAtMost here (length value.now) result }
{
    let laid = laying::lay_value(kind, value, text, here.bytes as usize);
    let new = value_words(kind, here.bytes, laid.unwrap_or(0) as u32);
    let records = appending::add(words, text, here.among(), new).ok_or(Refusal::TooFewRecords)?;
    let len = laid.ok_or(Refusal::TooLittleText)?;
    Ok(Here {
        records,
        bytes: here.bytes + len as u32,
        aids: finding::aids_for(here.aids, records),
        ..here
    })
}
