// A key entered in the map at a record.
ghost use Rattle.std.specs.Prelude.{◌≡◌, ◌+◌, ◌≤◌, length};
ghost use Rattle.decode.specs.Shown.{length_of};
ghost use Rattle.records.specs.Keys.{meant_key};
ghost use Rattle.aids.specs.Kept.{free_from, Kept};
ghost use Rattle.records.specs.Siblings.{position};
ghost use Rattle.finding.specs.Aids.{IsGap};
ghost use Rattle.reading.specs.Adding.{key_text};
ghost use Rattle.tree.specs.Laying.{LiesBehind};
ghost use Rattle.tree.specs.Entering.{new_key_words, new_record, MapReady, Entered};
ghost use Rattle.tree.specs.Stored.{SomeStoredAt};
ghost use Rattle.tree.specs.Commands.{Performs, enters, further, Countable, AddsAtMost};

use crate::{Here, laying, needing};
use indexed::growing;
use key::KeyKind;
use records::siblings::{Gap, Position};
use records::store::{KeyWords, Record, ValueWords};
use records::{keys, siblings};
use refusals::Refusal;
use row::Kind;

// The words of a new key whose text, if it has any, is laid at an offset with a length: the offset of an empty one is
// 0.
fn key_words(key: KeyKind, offset: u32, len: u32) -> KeyWords
    ensures { result ≡ new_key_words key offset len }
{
    match key {
        KeyKind::Int(int) => KeyWords {
            kind: row::KeyKind::Int.into(),
            offset: int,
            len: 0,
        },
        KeyKind::None | KeyKind::String => KeyWords {
            kind: row::KeyKind::String.into(),
            offset: if len == 0 { 0 } else { offset },
            len,
        },
    }
}

// The position of a key among the children of the record, a Map, once its text was to be laid behind what is used: by
// its text there, with the aids, or else by the raw segment. The child touched last comes first.
fn find_key(
    words: &mut [u32],
    text: &[u8],
    here: Here,
    key: KeyKind,
    raw: &[u8],
    laid: Option<usize>,
) -> Position
    requires ready { MapReady words.old text.now here }
    requires laid { LiesBehind text.now here.bytes (key_text (meant_key key raw.now)) laid }
    ensures position { result ≡ position words.old text.now (meant_key key raw.now)
        here.node }
    ensures kept { Kept (free_from here.aids) words.old words.new }
{
    let Some(len) = laid else {
        return siblings::find(words, text, here.node, key, raw, true);
    };
    let among = here.among();
    let start = here.bytes as usize;
    let name = &text[start..start + len];
    if let Some(again) = finding::find_again(words, text, among, key, name) {
        return Ok(again);
    }
    let tag = keys::tag_of(key, text, start, len);
    finding::find(words, text, among, tag, name)
}

// The record of a new child, Uninitialized, whose key's text, if it has any, is laid at an offset with a length.
fn new_record(key: KeyKind, offset: u32, len: u32) -> Record
    ensures { result ≡ new_record key offset len }
{
    Record {
        key: key_words(key, offset, len),
        value: ValueWords {
            kind: Kind::Uninitialized.into(),
            offset: 0,
            len: 0,
        },
    }
}

// Enters a new key, whose position is a gap among the children of the record, a Map: an Uninitialized child. Its text
// is laid already, or doesn't fit; the records are checked before that. Without room for both nothing changes.
fn enter_new(
    words: &mut [u32],
    text: &[u8],
    here: Here,
    gap: Gap,
    key: KeyKind,
    laid: Option<usize>,
) -> Result<Here, Refusal>
    requires ready { MapReady words.old text.now here × IsGap words.old here.node gap.prev gap.next }
    requires countable { Countable here 2 (length_of laid) × (here.bytes + length_of laid ≤ length text.now) }
    ensures { Entered words.old here gap key words.new laid result }
{
    if !row::has_room(words, here.records + 1) {
        return Err(Refusal::TooFewRecords);
    }
    let len = laid.ok_or(Refusal::TooLittleText)?;
    let new = new_record(key, here.bytes, len as u32);
    growing::insert_child(words, text, here.among(), gap, new);
    Ok(Here {
        records: here.records + 1,
        bytes: here.bytes + len as u32,
        node: here.records,
        aids: finding::aids_for(here.aids, here.records + 1),
    })
}

// Enters a key in the map that is needed at the record: the child that has it, or a new one, Uninitialized. The key is
// decoded once, into the free text, and found by what is shown of it there. A key that has a child already needs no
// space, and is found however little text is left. After a refusal what the words and the text hold is free.
pub fn enter(
    words: &mut [u32],
    text: &mut [u8],
    here: Here,
    key: KeyKind,
    raw: &[u8],
) -> Result<Here, Refusal>
    requires stored { SomeStoredAt words.old text.old here }
    requires countable { Countable here 2 (length raw.now) }
    ensures performs { Performs words.old text.old words.new text.new
        here (enters (meant_key key raw.now)) (further (meant_key key raw.now)) result }
    ensures adds { AddsAtMost here (length raw.now) result }
{
    needing::expect_map(words, here)?;
    let laid = laying::lay_key(key, raw, text, here.bytes as usize);
    match find_key(words, text, here, key, raw, laid) {
        Ok(node) => Ok(Here { node, ..here }),
        Err(gap) => enter_new(words, text, here, gap, key, laid),
    }
}
