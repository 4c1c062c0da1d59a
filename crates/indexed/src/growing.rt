// A record put in among the children of another, of which the aids know then, unless the records reach them.
ghost use Rattle.std.specs.Prelude.{◌≢◌, IfSome, List, ℕ, ◌+◌, ◌*◌, ◌≤◌, ◌<◌, ◌^◌, length};
ghost use Rattle.row.specs.Row.{record_width};
ghost use Rattle.row.specs.Words.{record_count};
ghost use Rattle.aids.specs.Kept.{free_from, no_aids, Kept};
ghost use Rattle.records.specs.Keys.{InText};
ghost use Rattle.records.specs.Records.{key_words_at, inserted};
ghost use Rattle.records.specs.Siblings.{children, last_of};
ghost use Rattle.records.specs.Holds.{HoldsSome};
ghost use Rattle.finding.specs.Aids.{IsGap, Aided, Grown, Noted, NotedTwo};
ghost use Rattle.indexed.specs.Adding.{Growable};

use aids::{Among, fingers};
use records::siblings::Gap;
use records::store::Record;
use records::{keys, siblings};

// With fewer records there are no aids: the lists are short.
const FEWEST: usize = 64;

// The most records that stand below the aids, so that a slot has room for a record's number.
const MOST: usize = 268435455;

// How many of the records lent stand below the aids: all but a third, if there are enough.
fn below_aids(records: usize) -> Option<u32>
    ensures { IfSome result (λ below. (0 < below) × (free_from below ≤ records * record_width)) }
{
    if records < FEWEST {
        return None;
    }
    let below = records - records / 3;
    Some(below.min(MOST) as u32)
}

// Makes the aids ready for words in which only record 0 is used.
// Stays a number, `NO_AIDS` for none: it is the `aids` of `Here` and `Among`.
pub fn start(words: &mut [u32]) -> u32
    ensures { Kept (free_from result) words.old words.new × Aided words.new 1 result }
{
    match below_aids(words.len() / row::WIDTH) {
        Some(below) => {
            fingers::start(words, below);
            below
        }
        None => aids::NO_AIDS,
    }
}

// Has the aids know the record that follows those used, a child of a Map, after its key was looked for. The three that
// note are kept apart: they differ in what they have the aids know and in what is asked for it.
fn note_child(words: &mut [u32], text: &[u8], among: Among)
    requires room { (among.aids ≢ no_aids → free_from among.aids ≤ length words.old) }
    requires inside { (among.used < record_count words.old) × InText text.now (key_words_at words.old among.used) }
    ensures { Noted words.old among words.new }
{
    if among.aids != aids::NO_AIDS && among.used < among.aids {
        let tag = keys::tag_at(words, text, among.used);
        finding::know_child(words, text, among, tag, among.used);
    }
}

// The same for a child of a sequence, the last.
fn note_last(words: &mut [u32], among: Among)
    requires { among.aids ≢ no_aids → free_from among.aids ≤ length words.old }
    ensures { Noted words.old among words.new }
{
    if among.aids != aids::NO_AIDS && among.used < among.aids {
        finding::know_last(words, among, among.used);
    }
}

// The same for the two children of a new sequence.
pub(crate) fn note_two(words: &mut [u32], among: Among)
    requires room { (among.aids ≢ no_aids → free_from among.aids ≤ length words.old) }
    requires countable { among.used + 2 < 2 ^ 32 }
    ensures { NotedTwo words.old among words.new }
{
    if among.aids != aids::NO_AIDS && among.used + 1 < among.aids {
        finding::know_two(words, among, among.used);
    }
}

// Puts in a child of a Map, in a gap among its children, after its key was looked for.
pub fn insert_child(words: &mut [u32], text: &[u8], among: Among, gap: Gap, new: Record)
    requires held { HoldsSome words.old text.now among.used × Aided words.old among.used among.aids
        × IsGap words.old among.parent gap.prev gap.next }
    requires inside { (among.parent < among.used)
        × (among.used < record_count words.old) × (among.used + 2 < 2 ^ 32) × InText text.now new.key }
    ensures { Grown (inserted words.old among.used among.parent gap.prev gap.next new)
        among.aids (among.used + 1) words.new }
{
    siblings::insert(words, among.used, among.parent, gap, new);
    note_child(words, text, among);
}

// Puts in a last child, without a key.
pub(crate) fn insert_last(words: &mut [u32], among: Among, new: Record)
    requires growable { Growable words.old among }
    requires inside { (among.used < record_count words.old)
        × ((text : List ℕ) → InText text new.key) }
    ensures { Grown (inserted words.old among.used among.parent
        (last_of 0 (children words.old among.parent)) 0 new)
        among.aids (among.used + 1) words.new }
{
    let prev = finding::last_child(words, among);
    siblings::insert(words, among.used, among.parent, Gap { prev, next: 0 }, new);
    note_last(words, among);
}
