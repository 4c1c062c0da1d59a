// The slot of a record: the child of it that was touched last, and a note beside it, whether the record has many
// children and how often in a row the slot was no help.
ghost use Rattle.std.specs.Prelude.{◌<◌};
ghost use Rattle.aids.specs.Kept.{free_from, Kept};

use crate::{Among, free, keys, layout};

// The note stands above the child's number.
// Stays a number: child and note share one word of the lent slice (fixed memory), which `last` reads as an Option.
const NOTE: u32 = 268435456;

// The note that a record has many children; with up to three misses added.
const MANY: u32 = 4;

const MISSES: u32 = 3;

// Makes the slot of a record empty.
pub fn clear(words: &mut [u32], aids: u32, n: u32)
    ensures { Kept (free_from aids) words.old words.new }
{
    free::write(words, aids, layout::slot_at(aids, n), 0);
}

// The child that was touched last.
pub fn last(words: &[u32], among: Among) -> Option<u32> {
    match free::read(words, layout::slot_at(among.aids, among.parent)) % NOTE {
        0 => None,
        child => Some(child),
    }
}

fn note(words: &[u32], among: Among) -> u32
    ensures { result < 16 }
{
    free::read(words, layout::slot_at(among.aids, among.parent)) / NOTE
}

// Whether the slot was of help of late.
pub fn helps(words: &[u32], among: Among) -> bool {
    note(words, among) % MANY < 2
}

// Whether the record is known to have many children.
pub fn has_many(words: &[u32], among: Among) -> bool {
    MANY <= note(words, among)
}

// Fills the slot.
fn fill(words: &mut [u32], among: Among, child: u32, note: u32)
    requires { note < 8 }
    ensures { Kept (free_from among.aids) words.old words.new }
{
    if child < NOTE {
        let slot = layout::slot_at(among.aids, among.parent);
        free::write(words, among.aids, slot, note * NOTE + child);
    }
}

// Notes the last child of a sequence.
pub fn set_last(words: &mut [u32], among: Among, child: u32)
    ensures { Kept (free_from among.aids) words.old words.new }
{
    fill(words, among, child, 0);
}

// The note after a child was come to without the fingers.
fn note_near(words: &[u32], among: Among) -> u32
    ensures { result < 8 }
{
    if has_many(words, among) { MANY } else { 0 }
}

// Notes a child that was come to without the fingers.
pub fn set_near(words: &mut [u32], among: Among, child: u32)
    ensures { Kept (free_from among.aids) words.old words.new }
{
    let note = note_near(words, among);
    fill(words, among, child, note);
}

// The note after a child was come to by the fingers. An order of keys that turns regular again is seen: the child
// stands beside the one before.
fn note_by_fingers(words: &[u32], among: Among, child: u32) -> u32
    ensures { result < 8 }
{
    if last(words, among).is_some_and(|before| keys::next(words, before) == child) {
        return MANY;
    }
    let misses = note(words, among) % MANY;
    MANY + MISSES.min(misses + 1)
}

// Notes a child that was come to by the fingers.
pub fn set_by_fingers(words: &mut [u32], among: Among, child: u32)
    ensures { Kept (free_from among.aids) words.old words.new }
{
    let note = note_by_fingers(words, among, child);
    fill(words, among, child, note);
}
