// A value added at a record: the work of the source's `append_value` on the words.
ghost use Rattle.std.specs.Prelude.{◌≡◌, ◌≢◌, ◌↔◌, IsTrue, [], ◌+◌, ◌<◌, ◌^◌};
ghost use Rattle.key.specs.Keys.{str};
ghost use Rattle.row.specs.Row.{kind_word, map_kind, sequence_kind};
ghost use Rattle.row.specs.Words.{record_count, word};
ghost use Rattle.aids.specs.Kept.{free_from, Kept};
ghost use Rattle.records.specs.Siblings.{position};
ghost use Rattle.finding.specs.Aids.{Ready, IsGap};
ghost use Rattle.indexed.specs.Adding.{child_added, pushed};
ghost use Rattle.indexed.specs.Adding.{sequence_of_two, paired, appended_here};
ghost use Rattle.indexed.specs.Adding.{Leaves, Growable, Appends};

use crate::growing;
use aids::Among;
use key::KeyKind;
use records::siblings::{Gap, Position};
use records::store::{KeyWords, Record, ValueWords};
use records::{siblings, store};
use row::Kind;

// The key of a sequence's element: none.
const NO_KEY: KeyWords = KeyWords {
    kind: row::KeyKind::None as u32,
    offset: 0,
    len: 0,
};

// The empty key, which has no text.
const EMPTY_KEY: KeyWords = KeyWords {
    kind: row::KeyKind::String as u32,
    offset: 0,
    len: 0,
};

// The position of the empty key among the children of a Map.
fn find_empty(words: &mut [u32], text: &[u8], among: Among) -> Position
    requires ready { Ready words.old text.now among.used among.aids }
    requires inside { (among.parent < among.used)
        × (word words.old among.parent kind_word ≡ map_kind) }
    ensures position { result ≡ position words.old text.now (str []) among.parent }
    ensures kept { Kept (free_from among.aids) words.old words.new }
{
    if among.aids == aids::NO_AIDS {
        return siblings::find(words, text, among.parent, KeyKind::String, b"", false);
    }
    finding::find_far(words, text, among, tags::STRING_TAG, b"")
}

// Adds a value as a new child under the empty key of a Map, in a gap among its children. The answer, here and below,
// is how many records are used then, or none where there are too few.
fn add_child(
    words: &mut [u32],
    text: &[u8],
    among: Among,
    gap: Gap,
    value: ValueWords,
) -> Option<u32>
    requires ready { Ready words.old text.now among.used among.aids }
    requires inside { (among.parent < among.used)
        × (among.used + 2 < 2 ^ 32) × IsGap words.old among.parent gap.prev gap.next }
    ensures { Leaves (child_added words.old among.used among.parent gap.prev gap.next value)
        among.aids words.new result }
{
    if !row::has_room(words, among.used + 1) {
        return None;
    }
    let new = Record {
        key: EMPTY_KEY,
        value,
    };
    growing::insert_child(words, text, among, gap, new);
    Some(among.used + 1)
}

// Adds a value last in a sequence.
// Stay clauses, `Growable` and `Ready`: they speak of words that the call changes, and no value holds them.
fn push(words: &mut [u32], among: Among, value: ValueWords) -> Option<u32>
    requires { Growable words.old among }
    ensures { Leaves (pushed words.old among.used among.parent value) among.aids
        words.new result }
{
    if !row::has_room(words, among.used + 1) {
        return None;
    }
    let new = Record { key: NO_KEY, value };
    growing::insert_last(words, among, new);
    Some(among.used + 1)
}

// Makes the single value of record n a sequence of two: the old value moves to a new record, and the new one follows
// in another. The record keeps its key and its siblings.
fn make_sequence(words: &mut [u32], used: u32, n: u32, value: ValueWords)
    requires { (n < record_count words.old) × (used + 1 < record_count words.old) × (used + 2 < 2 ^ 32) }
    ensures { words.new ≡ sequence_of_two words.old used n value }
{
    let old = store::get_value(words, n);
    let sequence = ValueWords {
        kind: Kind::Sequence as u32,
        offset: 0,
        len: 0,
    };
    store::set_value(words, n, sequence);
    let first = Record {
        key: NO_KEY,
        value: old,
    };
    let second = Record { key: NO_KEY, value };
    siblings::insert(words, used, n, Gap { prev: 0, next: 0 }, first);
    let behind = Gap {
        prev: used,
        next: 0,
    };
    siblings::insert(words, used + 1, n, behind, second);
}

// Adds a value at a record that holds a single value.
fn pair(words: &mut [u32], among: Among, value: ValueWords) -> Option<u32>
    requires growable { Growable words.old among }
    requires single { (word words.old among.parent kind_word ≢ map_kind)
        × (word words.old among.parent kind_word ≢ sequence_kind) }
    ensures { Leaves (paired words.old among.used among.parent value) among.aids
        words.new result }
{
    if !row::has_room(words, among.used + 2) {
        return None;
    }
    make_sequence(words, among.used, among.parent, value);
    growing::note_two(words, among);
    Some(among.used + 2)
}

// Adds a value at a record that is no Map.
fn append_here(words: &mut [u32], among: Among, value: ValueWords) -> Option<u32>
    requires growable { Growable words.old among }
    requires no_map { word words.old among.parent kind_word ≢ map_kind }
    ensures { Leaves (appended_here words.old among.used among.parent value) among.aids
        words.new result }
{
    match Kind::try_from(row::get_word(words, among.parent, row::KIND)) {
        Ok(Kind::Uninitialized) => {
            store::set_value(words, among.parent, value);
            Some(among.used)
        }
        Ok(Kind::Sequence) => push(words, among, value),
        _ => pair(words, among, value),
    }
}

// Whether record n is a Map.
// Stays a comparison with the number: `Kind::try_from` and a match say the same of one kind in more words.
fn is_map(words: &[u32], n: u32) -> bool
    requires { n < record_count words.now }
    ensures { IsTrue result ↔ (word words.now n kind_word ≡ map_kind) }
{
    row::get_word(words, n, row::KIND) == Kind::Map as u32
}

// Adds a value at the parent, by the rule of Adding: a Map adds it under its empty key, by the same rule at the child
// that has this key, whose number is greater. Too few records leave the words free.
fn append(words: &mut [u32], text: &[u8], among: Among, value: ValueWords) -> Option<u32>
    requires { (Ready words.old text.now among.used among.aids) × ((among.parent < among.used)
        × (among.used + 2 < 2 ^ 32)) }
    ensures { Appends words.old text.now among value words.new result }
{
    if !is_map(words, among.parent) {
        return append_here(words, among, value);
    }
    match find_empty(words, text, among) {
        Ok(child) => {
            let below = Among {
                parent: child,
                ..among
            };
            append(words, text, below, value)
        }
        Err(gap) => add_child(words, text, among, gap, value),
    }
}

// The same. A record that is no Map, as most are, is seen here, and structs made anew are handed on: so the compiler
// keeps the parts in registers.
pub fn add(words: &mut [u32], text: &[u8], among: Among, value: ValueWords) -> Option<u32>
    requires ready { Ready words.old text.now among.used among.aids }
    requires inside { (among.parent < among.used)
        × (among.used + 2 < 2 ^ 32) }
    ensures { Appends words.old text.now among value words.new result }
{
    if !is_map(words, among.parent) {
        return append_here(words, among, value);
    }
    let at = Among {
        parent: among.parent,
        used: among.used,
        aids: among.aids,
    };
    let new = ValueWords {
        kind: value.kind,
        offset: value.offset,
        len: value.len,
    };
    append(words, text, at, new)
}
