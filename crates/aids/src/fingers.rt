// Fingers: a child proposed for a key among many, and fingers put in. A finger is put in for a new child that was come
// to by the fingers, and along a walk that was long. So no order of keys makes many long walks.
ghost use Rattle.std.specs.Prelude.{◌+◌, ◌<◌, ◌^◌};
ghost use Rattle.aids.specs.Kept.{free_from, Kept};

use crate::{Among, blocks, free, keys, layout, order, slots};

// How the last key was looked for: without fingers, by those of a block, or in vain as the record has no block.
#[derive(Clone, Copy, PartialEq, Eq)]
enum Way {
    Near = 0,
    ByBlock = 1,
    NoBlock = 2,
}

impl From<u32> for Way {
    fn from(word: u32) -> Way {
        match word {
            0 => Way::Near,
            2 => Way::NoBlock,
            _ => Way::ByBlock,
        }
    }
}

// The word of no child: it was not walked far.
// Stays a number: it is a word of the lent slice (fixed memory), which `far` reads as an Option.
const NOWHERE: u32 = 4294967295;

// Of the children along a long walk, one in so many gets a finger.
const STRIDE: u32 = 4;

// Makes the aids empty.
pub fn start(words: &mut [u32], aids: u32)
    ensures { Kept (free_from aids) words.old words.new }
{
    free::write(words, aids, layout::head_at(aids, layout::BLOCKS), 0);
    slots::clear(words, aids, 0);
}

// How the last key was looked for.
fn last_way(words: &[u32], aids: u32) -> Way {
    Way::from(free::read(words, layout::head_at(aids, layout::WAY)))
}

fn set_way(words: &mut [u32], aids: u32, way: Way)
    ensures { Kept (free_from aids) words.old words.new }
{
    free::write(words, aids, layout::head_at(aids, layout::WAY), way as u32);
}

// Notes that a key is looked for without fingers.
pub fn look_near(words: &mut [u32], aids: u32)
    ensures { Kept (free_from aids) words.old words.new }
{
    set_way(words, aids, Way::Near);
}

// Whether the last key was looked for by fingers.
pub fn looked_by_fingers(words: &[u32], aids: u32) -> bool {
    last_way(words, aids) != Way::Near
}

// The child from which the last key was walked to far.
fn far(words: &[u32], aids: u32) -> Option<u32> {
    match free::read(words, layout::head_at(aids, layout::FAR)) {
        NOWHERE => None,
        first => Some(first),
    }
}

// Notes that a key is walked to far, from a child on.
pub fn walk_far(words: &mut [u32], aids: u32, first: u32)
    ensures { Kept (free_from aids) words.old words.new }
{
    free::write(words, aids, layout::head_at(aids, layout::FAR), first);
}

// Notes the spot of a key among the fingers.
fn set_spot(words: &mut [u32], aids: u32, entry: u32, place: u32)
    ensures { Kept (free_from aids) words.old words.new }
{
    set_way(words, aids, Way::ByBlock);
    free::write(words, aids, layout::head_at(aids, layout::ENTRY), entry);
    free::write(words, aids, layout::head_at(aids, layout::PLACE), place);
}

// The child proposed for a key among others of its tag.
fn propose_tied(words: &mut [u32], text: &[u8], among: Among, tag: u64, name: &[u8]) -> Option<u32>
    ensures { Kept (free_from among.aids) words.old words.new }
{
    let entry = order::find_tied(words, text, among, tag, name);
    let b = order::block(words, among.aids, entry);
    let place = blocks::count_not_after(words, text, b, tag, name);
    set_spot(words, among.aids, entry, place);
    let last = place.checked_sub(1)?;
    Some(blocks::child(words, b, last))
}

// The child of the last finger of a block that is not above the tag.
fn propose_in(
    words: &mut [u32],
    text: &[u8],
    among: Among,
    entry: u32,
    tag: u64,
    name: &[u8],
) -> Option<u32>
    ensures { Kept (free_from among.aids) words.old words.new }
{
    let b = order::block(words, among.aids, entry);
    let place = blocks::count_not_above(words, b, tag);
    set_spot(words, among.aids, entry, place);
    let last = place.checked_sub(1)?;
    let child = blocks::child(words, b, last);
    if blocks::tag(words, b, last) != tag || keys::is_not_after(words, text, child, tag, name) {
        return Some(child);
    }
    propose_tied(words, text, among, tag, name)
}

// The child proposed for a key: that of the last finger that is not after it.
pub fn propose(words: &mut [u32], text: &[u8], among: Among, tag: u64, name: &[u8]) -> Option<u32>
    ensures { Kept (free_from among.aids) words.old words.new }
{
    set_way(words, among.aids, Way::NoBlock);
    walk_far(words, among.aids, NOWHERE);
    if order::count(words, among.aids) == 0 {
        return None;
    }
    let entry = order::find(words, among, tag);
    if order::parent(words, among.aids, entry) != among.parent {
        return None;
    }
    propose_in(words, text, among, entry, tag, name)
}

// The place in the order for the first block of a record.
fn first_place(words: &[u32], among: Among) -> u32 {
    let entry = order::find(words, among, 0);
    let is_before = order::parent(words, among.aids, entry) < among.parent;
    if is_before && entry < order::count(words, among.aids) {
        return entry + 1;
    }
    entry
}

// Puts in the first finger of a record.
fn add_first(words: &mut [u32], among: Among, tag: u64, child: u32)
    ensures { Kept (free_from among.aids) words.old words.new }
{
    if order::has_room(words, among.aids) {
        let b = layout::block_at(words, order::count(words, among.aids));
        blocks::begin(words, among.aids, b, tag, child);
        let place = first_place(words, among);
        order::insert(words, among, place, 0);
    }
}

// Puts an entry for a new block behind another.
fn enter_behind(words: &mut [u32], among: Among, entry: u32, b: usize)
    requires { b + 97 < 2 ^ 64 }
    ensures { Kept (free_from among.aids) words.old words.new }
{
    if entry < order::count(words, among.aids) {
        let first = blocks::tag(words, b, 0);
        order::insert(words, among, entry + 1, first);
    }
}

// Puts a finger in a full block, of which the upper half moves to a new one.
fn add_full(words: &mut [u32], among: Among, entry: u32, tag: u64, child: u32)
    ensures { Kept (free_from among.aids) words.old words.new }
{
    let aids = among.aids;
    let place = free::read(words, layout::head_at(aids, layout::PLACE));
    let b = order::block(words, aids, entry);
    let upper = layout::block_at(words, order::count(words, aids));
    blocks::halve(words, aids, b, upper);
    enter_behind(words, among, entry, upper);
    if layout::HALF < place {
        return blocks::put(words, aids, upper, place - layout::HALF, tag, child);
    }
    blocks::put(words, aids, b, place, tag, child);
}

// Puts a finger at the spot of the last key.
fn add(words: &mut [u32], among: Among, tag: u64, child: u32)
    ensures { Kept (free_from among.aids) words.old words.new }
{
    let aids = among.aids;
    if last_way(words, aids) == Way::NoBlock {
        return add_first(words, among, tag, child);
    }
    let entry = free::read(words, layout::head_at(aids, layout::ENTRY));
    let b = order::block(words, aids, entry);
    if blocks::count(words, b) < layout::MOST {
        let place = free::read(words, layout::head_at(aids, layout::PLACE));
        return blocks::put(words, aids, b, place, tag, child);
    }
    if order::has_room(words, aids) {
        add_full(words, among, entry, tag, child);
    }
}

// Puts a finger at the spot of the last key for one new child in three, by its number: with n + 1 records lent for n
// bytes there is room for so many, even where every block is half full.
fn add_one_in_three(words: &mut [u32], among: Among, tag: u64, child: u32)
    ensures { Kept (free_from among.aids) words.old words.new }
{
    if child % 3 == 0 {
        add(words, among, tag, child);
    }
}

// Puts in a finger for a child, wherever it belongs.
fn add_child(words: &mut [u32], text: &[u8], among: Among, child: u32)
    ensures { Kept (free_from among.aids) words.old words.new }
{
    let tag = keys::tag(words, text, child);
    let part = keys::part_of(words, text, child);
    let start = part.start;
    let end = part.end;
    propose(words, text, among, tag, &text[start..end]);
    add(words, among, tag, child);
}

// Puts in a finger for a child whose turn it is.
fn add_in_turn(words: &mut [u32], text: &[u8], among: Among, child: u32, turn: u32)
    ensures { Kept (free_from among.aids) words.old words.new }
{
    if turn % STRIDE == 0 {
        add_child(words, text, among, child);
    }
}

// Puts in fingers along a walk that was long, from one child on up to another.
// Stays a walk by hand: the words may be any, so no list is known to end, and an iterator would lend what is written.
fn add_along(words: &mut [u32], text: &[u8], among: Among, first: u32, to: u32)
    ensures { Kept (free_from among.aids) words.old words.new }
{
    let mut child = first;
    for turn in (0..among.aids).rev() {
        if child == 0 || child == to {
            return;
        }
        add_in_turn(words, text, among, child, turn);
        child = keys::next(words, child);
    }
}

// Puts in fingers after a key was looked for: along a walk that was long.
pub fn settle(words: &mut [u32], text: &[u8], among: Among, child: u32)
    ensures { Kept (free_from among.aids) words.old words.new }
{
    if let Some(first) = far(words, among.aids) {
        add_along(words, text, among, first, child);
    }
}

// The same after its child was made: along a walk that was long, else for the child.
pub fn settle_new(words: &mut [u32], text: &[u8], among: Among, tag: u64, child: u32)
    ensures { Kept (free_from among.aids) words.old words.new }
{
    match far(words, among.aids) {
        Some(first) => add_along(words, text, among, first, child),
        None => add_one_in_three(words, among, tag, child),
    }
}
