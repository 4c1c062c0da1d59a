// A child found with the aids: by the slot of its parent, along the first children, or by the fingers. What an aid
// proposes is taken only if it is a child of the parent and its key does not stand behind the one that is looked for;
// then the walk along the siblings goes on from there.
// What is found is what the walk along all children has (`position` and `last_of` in records' specs/Siblings), and no
// word changes but those behind the aids. What is claimed of these is specs/Aids. A new record is made known to them
// here; putting it in stands above (indexed).
// Below it stand the store (records), a record's row (row), the keys (key), their tags (tags) and the aids (aids).
#![tactic(auto)]

ghost use Rattle.std.specs.Prelude.{◌≡◌, ◌≢◌, true, false, IfSome, length, set, ◌+◌, ◌≤◌, ◌<◌};
ghost use Rattle.row.specs.Row.{kind_word, child_word, map_kind};
ghost use Rattle.row.specs.Words.{record_count, word};
ghost use Rattle.tags.specs.Tags.{ordering_of, Sought};
ghost use Rattle.aids.specs.Kept.{free_from, no_aids, Kept};
ghost use Rattle.records.specs.Records.{key_words_at};
ghost use Rattle.records.specs.Keys.{InText, sought_key};
ghost use Rattle.records.specs.Siblings.{chain, children, standing, seek, found, position, last_of, ChainEnds};
ghost use Rattle.records.specs.Siblings.{Linked, WellFormed, ForSome, Walking};
ghost use Rattle.finding.specs.Aids.{ChildOf, Aided, Ready, parent_index, aids_for};
ghost use Rattle.finding.specs.Finding.{tagged_key, Asked, Tells};

use aids::{Among, fingers, slots};
use key::KeyKind;
use records::siblings::{Position, Siblings};
use records::{keys, siblings};
use std::cmp::Ordering;

// Siblings looked through from the slot's child on, from the first on, and from a finger's child on.
const BESIDE: usize = 2;

const FIRST: usize = 16;

const FROM_FINGER: usize = 8;

// Where a walk along siblings stands: at one, behind another, 0 standing for none.
// Stays with 0 for none, the links' own word: `cur` and `prev` are handed to records as they are.
#[derive(Clone, Copy)]
struct Walk {
    prev: u32,
    cur: u32,
}

// The record that is proposed, if the aids know it as a child of the parent.
fn known(words: &[u32], among: Among, proposed: Option<u32>) -> Option<u32>
    requires { Aided words.now among.used among.aids × (among.aids ≢ no_aids) }
    ensures { IfSome result (ChildOf words.now among.parent) }
{
    let c = proposed?;
    let is_child = (1..among.used).contains(&c)
        && words[among.aids as usize * row::WIDTH + c as usize] == among.parent;
    if is_child { Some(c) } else { None }
}

// The position of a key in the rest of a walk, if it is among so many siblings.
fn walk_some(
    words: &[u32],
    text: &[u8],
    walk: Walk,
    most: usize,
    tag: u64,
    name: &[u8],
) -> Option<Position>
    requires well_formed { ForSome (λ used. WellFormed words.now text.now used × ChainEnds words.now used walk.cur) }
    requires sought { Sought (tagged_key tag name.now) tag name.now }
    ensures { Tells (seek (standing words.now text.now (tagged_key tag name.now))
        walk.prev (chain words.now (record_count words.now) walk.cur)) result }
{
    let siblings = Siblings::starting(words, walk.cur);
    siblings::place_within(
        siblings,
        most,
        walk.prev,
        |n| -> Ordering
            requires { (n < record_count words.now) × InText text.now (key_words_at words.now n)
                × Sought (tagged_key tag name.now) tag name.now }
            ensures { ordering_of result ≡ standing words.entry.now text.entry.now
                (tagged_key tag name.entry.now) n }
        { keys::compare_tagged(words, text, n, tag, name) },
    )
}

// The position of a key in the rest of a walk.
// Stays beside `walk_some`: the closure is written where it is handed in, as no function may hand one out.
fn walk_all(words: &[u32], text: &[u8], walk: Walk, tag: u64, name: &[u8]) -> Position
    requires well_formed { ForSome (λ used. WellFormed words.now text.now used × ChainEnds words.now used walk.cur) }
    requires sought { Sought (tagged_key tag name.now) tag name.now }
    ensures { result ≡ seek (standing words.now text.now (tagged_key tag name.now))
        walk.prev (chain words.now (record_count words.now) walk.cur) }
{
    let siblings = Siblings::starting(words, walk.cur);
    siblings::place(
        siblings,
        walk.prev,
        |n| -> Ordering
            requires { (n < record_count words.now) × InText text.now (key_words_at words.now n)
                × Sought (tagged_key tag name.now) tag name.now }
            ensures { ordering_of result ≡ standing words.entry.now text.entry.now
                (tagged_key tag name.entry.now) n }
        { keys::compare_tagged(words, text, n, tag, name) },
    )
}

// A walk from the first child on.
// Stays a clause, `Asked`: it speaks of words that the calls change, and no value of the program holds them.
fn walk_first(words: &[u32], text: &[u8], among: Among, tag: u64, name: &[u8]) -> Walk
    requires { Asked words.now text.now among tag name.now }
    ensures { Walking (standing words.now text.now (tagged_key tag name.now))
        words.now text.now 0 (word words.now among.parent child_word)
        result.prev result.cur }
{
    Walk {
        prev: 0,
        cur: row::get_word(words, among.parent, row::CHILD),
    }
}

// A walk from a child that is proposed on, if it is one and its key does not stand behind the key, else from the first.
fn walk_from(
    words: &[u32],
    text: &[u8],
    among: Among,
    proposed: Option<u32>,
    tag: u64,
    name: &[u8],
) -> Walk
    requires asked { Asked words.now text.now among tag name.now }
    requires aided { among.aids ≢ no_aids }
    ensures { Walking (standing words.now text.now (tagged_key tag name.now))
        words.now text.now 0 (word words.now among.parent child_word)
        result.prev result.cur }
{
    let Some(child) = known(words, among, proposed) else {
        return walk_first(words, text, among, tag, name);
    };
    match keys::compare_tagged(words, text, child, tag, name) {
        Ordering::Less => Walk {
            prev: child,
            cur: row::get_word(words, child, row::NEXT),
        },
        Ordering::Equal => Walk {
            prev: 0,
            cur: child,
        },
        Ordering::Greater => walk_first(words, text, among, tag, name),
    }
}

// The position of a key by the fingers. A long walk is noted.
fn find_by_fingers(words: &mut [u32], text: &[u8], among: Among, tag: u64, name: &[u8]) -> Position
    requires asked { Asked words.old text.now among tag name.now }
    requires aided { among.aids ≢ no_aids }
    ensures position { result ≡ position words.old text.now (tagged_key tag name.now)
        among.parent }
    ensures kept { Kept (free_from among.aids) words.old words.new }
{
    let proposed = fingers::propose(words, text, among, tag, name);
    let walk = walk_from(words, text, among, proposed, tag, name);
    match walk_some(words, text, walk, FROM_FINGER, tag, name) {
        Some(position) => position,
        None => {
            let position = walk_all(words, text, walk, tag, name);
            fingers::walk_far(words, among.aids, walk.cur);
            position
        }
    }
}

// Notes a child that was come to.
fn touch(words: &mut [u32], text: &[u8], among: Among, child: u32)
    ensures { Kept (free_from among.aids) words.old words.new }
{
    if fingers::looked_by_fingers(words, among.aids) {
        slots::set_by_fingers(words, among, child);
        return fingers::settle(words, text, among, child);
    }
    slots::set_near(words, among, child);
}

// The child touched last, if it has the key: so most keys that come again are found, without a tag.
pub fn find_again(
    words: &[u32],
    text: &[u8],
    among: Among,
    key: KeyKind,
    name: &[u8],
) -> Option<u32>
    requires ready { Ready words.now text.now among.used among.aids }
    requires inside { (among.parent < among.used)
        × (word words.now among.parent kind_word ≡ map_kind) }
    ensures { IfSome result (λ child. found child ≡ position words.now text.now
        (sought_key key false name.now) among.parent) }
{
    if among.aids == aids::NO_AIDS {
        return None;
    }
    let child = known(words, among, slots::last(words, among))?;
    if keys::has_key(words, text, child, key, name) {
        return Some(child);
    }
    None
}

// The position of a key if it stands at the slot's child or beside it.
fn try_slot(words: &[u32], text: &[u8], among: Among, tag: u64, name: &[u8]) -> Option<Position>
    requires asked { Asked words.now text.now among tag name.now }
    requires aided { among.aids ≢ no_aids }
    ensures { Tells (position words.now text.now (tagged_key tag name.now)
        among.parent) result }
{
    if !slots::helps(words, among) {
        return None;
    }
    let walk = walk_from(words, text, among, slots::last(words, among), tag, name);
    walk_some(words, text, walk, BESIDE, tag, name)
}

// The position of a key if it stands among the first children of a record that isn't known to have many.
fn try_first(words: &[u32], text: &[u8], among: Among, tag: u64, name: &[u8]) -> Option<Position>
    requires { Asked words.now text.now among tag name.now }
    ensures { Tells (position words.now text.now (tagged_key tag name.now)
        among.parent) result }
{
    if slots::has_many(words, among) {
        return None;
    }
    let walk = walk_first(words, text, among, tag, name);
    walk_some(words, text, walk, FIRST, tag, name)
}

// The position of a key, by the first children or by the fingers.
pub fn find_far(words: &mut [u32], text: &[u8], among: Among, tag: u64, name: &[u8]) -> Position
    requires asked { Asked words.old text.now among tag name.now }
    requires aided { among.aids ≢ no_aids }
    ensures position { result ≡ position words.old text.now (tagged_key tag name.now)
        among.parent }
    ensures kept { Kept (free_from among.aids) words.old words.new }
{
    fingers::look_near(words, among.aids);
    let position = match try_first(words, text, among, tag, name) {
        Some(position) => position,
        None => find_by_fingers(words, text, among, tag, name),
    };
    if let Ok(child) = position {
        touch(words, text, among, child);
    }
    position
}

// The position of a key among the children of a Map.
pub fn find(words: &mut [u32], text: &[u8], among: Among, tag: u64, name: &[u8]) -> Position
    requires { Asked words.old text.now among tag name.now }
    ensures position { result ≡ position words.old text.now (tagged_key tag name.now)
        among.parent }
    ensures kept { Kept (free_from among.aids) words.old words.new }
{
    if among.aids == aids::NO_AIDS {
        let walk = walk_first(words, text, among, tag, name);
        return walk_all(words, text, walk, tag, name);
    }
    let Some(position) = try_slot(words, text, among, tag, name) else {
        return find_far(words, text, among, tag, name);
    };
    match position {
        Ok(child) => slots::set_near(words, among, child),
        Err(_) => fingers::look_near(words, among.aids),
    }
    position
}

// The last child of a record, or 0.
// Stays a number, as records' `last_child`: it is the `prev` of a gap.
pub fn last_child(words: &[u32], among: Among) -> u32
    requires { Linked words.now among.used × Aided words.now among.used among.aids
        × (among.parent < among.used) }
    ensures { result ≡ last_of 0 (children words.now among.parent) }
{
    if among.aids == aids::NO_AIDS {
        return siblings::last_child(words, among.parent);
    }
    match known(words, among, slots::last(words, among)) {
        Some(child) => {
            let next = row::get_word(words, child, row::NEXT);
            siblings::last_from(words, child, next)
        }
        None => siblings::last_child(words, among.parent),
    }
}

// Has the aids know a new record as a child of the parent, and makes its slot empty.
fn know(words: &mut [u32], among: Among, child: u32)
    requires { (free_from among.aids ≤ length words.old) × (child < among.aids) }
    ensures { Kept (free_from among.aids)
        (set words.old (parent_index among.aids child) among.parent) words.new }
{
    words[among.aids as usize * row::WIDTH + child as usize] = among.parent;
    slots::clear(words, among.aids, child);
}

// The same for a new child of a Map, whose key has the tag, after it was looked for.
pub fn know_child(words: &mut [u32], text: &[u8], among: Among, tag: u64, child: u32)
    requires { (free_from among.aids ≤ length words.old) × (child < among.aids) }
    ensures { Kept (free_from among.aids)
        (set words.old (parent_index among.aids child) among.parent) words.new }
{
    know(words, among, child);
    if fingers::looked_by_fingers(words, among.aids) {
        slots::set_by_fingers(words, among, child);
        return fingers::settle_new(words, text, among, tag, child);
    }
    slots::set_near(words, among, child);
}

// The same for a new last child of a sequence.
pub fn know_last(words: &mut [u32], among: Among, child: u32)
    requires { (free_from among.aids ≤ length words.old) × (child < among.aids) }
    ensures { Kept (free_from among.aids)
        (set words.old (parent_index among.aids child) among.parent) words.new }
{
    know(words, among, child);
    slots::set_last(words, among, child);
}

// The same for the first two children of a sequence, the second of which is last.
pub fn know_two(words: &mut [u32], among: Among, child: u32)
    requires { (free_from among.aids ≤ length words.old) × (child + 1 < among.aids) }
    ensures { Kept (free_from among.aids)
        (set (set words.old (parent_index among.aids child) among.parent)
        (parent_index among.aids (child + 1)) among.parent) words.new }
{
    words[among.aids as usize * row::WIDTH + child as usize] = among.parent;
    words[among.aids as usize * row::WIDTH + (child as usize + 1)] = among.parent;
    slots::clear(words, among.aids, child);
    slots::clear(words, among.aids, child + 1);
    slots::set_last(words, among, child + 1);
}

// The aids for so many records: none where the records reach them.
// Stays a number, `NO_AIDS` for none: it is the `aids` of `Here` and `Among`.
pub fn aids_for(aids: u32, used: u32) -> u32
    ensures { result ≡ aids_for aids used }
{
    if used <= aids {
        return aids;
    }
    aids::NO_AIDS
}
