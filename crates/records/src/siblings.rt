// Lists of siblings: a child found by its key, the last child, and a new child put in.
ghost use Rattle.std.specs.Prelude.{◌≡◌, ◌<◌, ◌≤◌, ℕ, All, IfSome, IsSome, length};
ghost use Prim.Native.Nat.{Ordering as NatOrdering};
ghost use Rattle.tags.specs.Tags.{ordering_of};
ghost use Rattle.std.specs.Iterator.{YieldsFirst, item_count};
ghost use Rattle.row.specs.Words.{record_count};
ghost use Rattle.records.specs.Keys.{InText, sought_key};
ghost use Rattle.records.specs.Siblings.{chain, children, standing, seek, position, last_of};
ghost use Rattle.records.specs.Siblings.{ChainEnds, Linked, WellFormed, ForSome};
ghost use Rattle.records.specs.Walks.{left};
ghost use Rattle.records.specs.Records.{key_words_at, linked, inserted};

pub use crate::line::Siblings;
use crate::store::Record;
use crate::{keys, store};
use key::KeyKind;
use std::cmp::Ordering;

// A gap among the children of a record, between two of them, 0 standing for none as in their links.
// Stays without Options: 0 is the links' own word for none (READING, 'Records'), and `insert` writes `next` as it is.
#[derive(Clone, Copy)]
pub struct Gap {
    pub prev: u32,
    pub next: u32,
}

// Where a key stands among the children of a map: at a child, or in a gap.
pub type Position = Result<u32, Gap>;

impl<'a> Siblings<'a> {
    // Those from record n on, none where n is 0.
    pub fn starting(words: &'a [u32], n: u32) -> Siblings<'a>
        requires { ForSome (λ used. Linked words.now used × ChainEnds words.now used n) }
        ensures { left result ≡ chain words.now (record_count words.now) n }
    {
        Siblings { words, cur: n }
    }

    // The children of a record.
    pub fn children(words: &'a [u32], parent: u32) -> Siblings<'a>
        requires { ForSome (λ used. Linked words.now used × (parent < used)) }
        ensures { left result ≡ children words.now parent }
    {
        Siblings::starting(words, row::get_word(words, parent, row::CHILD))
    }
}

impl<'a> Iterator for Siblings<'a> {
    type Item = u32;

    ghost next_gives = { YieldsFirst left };

    ghost remaining = { item_count left };

    fn next(&mut self) -> Option<u32> {
        if self.cur == 0 {
            return None;
        }
        let sibling = self.cur;
        self.cur = row::get_word(self.words, sibling, row::NEXT);
        Some(sibling)
    }
}

// The position of a key among the siblings that are left, of which `prev` is the one before the first, if it is among
// the first `most`: `compare` tells where each stands to the key.
// Stays with a count: `take` would not tell whether the siblings ended or the count did.
pub fn place_within<F: Fn(u32) -> Ordering>(
    siblings: Siblings,
    most: usize,
    prev: u32,
    compare: F,
) -> Option<Position>
    requires { All (F.pre compare) (left siblings) }
    ensures place { (stands : ℕ → NatOrdering)
        → All (λ m. (o : _) → F.post compare m o → ordering_of o ≡ stands m) (left siblings.entry)
        → IfSome result (λ p. p ≡ seek stands prev (left siblings.entry)) }
    ensures few { length (left siblings.entry) ≤ most → IsSome result }
{
    let mut more = most;
    let mut before = prev;
    for sibling in siblings {
        if more == 0 {
            return None;
        }
        more -= 1;
        match compare(sibling) {
            Ordering::Less => before = sibling,
            Ordering::Equal => return Some(Ok(sibling)),
            Ordering::Greater => {
                return Some(Err(Gap {
                    prev: before,
                    next: sibling,
                }));
            }
        }
    }
    Some(Err(Gap {
        prev: before,
        next: 0,
    }))
}

// The same among all of them. No list is longer than a usize counts.
pub fn place<F: Fn(u32) -> Ordering>(siblings: Siblings, prev: u32, compare: F) -> Position
    requires { All (F.pre compare) (left siblings) }
    ensures { (stands : ℕ → NatOrdering)
        → All (λ m. (o : _) → F.post compare m o → ordering_of o ≡ stands m) (left siblings.entry)
        → result ≡ seek stands prev (left siblings.entry) }
{
    match place_within(siblings, usize::MAX, prev, compare) {
        Some(position) => position,
        None => unreachable!(),
    }
}

// Kept with a flag: an enum of the three would be made at the one call with a raw segment, to be matched again.
// The position of a key among the children of a record. Beside a String key stand its bytes, which are to be decoded
// on the way where they are escaped.
pub fn find(
    words: &[u32],
    text: &[u8],
    parent: u32,
    key: KeyKind,
    bytes: &[u8],
    escaped: bool,
) -> Position
    requires { ForSome (λ used. WellFormed words.now text.now used × (parent < used)) }
    ensures { result ≡ position words.now text.now
        (sought_key key escaped bytes.now) parent }
{
    let children = Siblings::children(words, parent);
    place(
        children,
        0,
        |n| -> Ordering
            requires { (n < record_count words.now) × InText text.now (key_words_at words.now n) }
            ensures { ordering_of result ≡ standing words.entry.now text.entry.now
                (sought_key key escaped bytes.entry.now) n }
        { keys::compare_key(words, text, n, key, bytes, escaped) },
    )
}

// The last of the siblings from `first` on, or `before` where there is none.
// Stays a number: it is the `prev` of a gap, where 0 is the links' own word for none; so is that of `last_child`.
pub fn last_from(words: &[u32], before: u32, first: u32) -> u32
    requires { ForSome (λ used. Linked words.now used × ChainEnds words.now used first) }
    ensures { result ≡ last_of before (chain words.now (record_count words.now) first) }
{
    Siblings::starting(words, first).last().unwrap_or(before)
}

// The last child of a record, or 0.
pub fn last_child(words: &[u32], parent: u32) -> u32
    requires { ForSome (λ used. Linked words.now used × (parent < used)) }
    ensures { result ≡ last_of 0 (children words.now parent) }
{
    Siblings::children(words, parent).last().unwrap_or(0)
}

// Makes record `new` the next sibling of prev, or the first child of parent where prev is 0. Nothing else changes.
fn link(words: &mut [u32], parent: u32, prev: u32, new: u32)
    requires { (parent < record_count words.old) × (prev < record_count words.old) }
    ensures { words.new ≡ linked words.old parent prev new }
{
    if prev == 0 {
        row::set_word(words, parent, row::CHILD, new);
    } else {
        row::set_word(words, prev, row::NEXT, new);
    }
}

// Puts a new record, whose number is the count of those used, in a gap among the children of parent. Nothing else
// changes.
pub fn insert(words: &mut [u32], used: u32, parent: u32, gap: Gap, new: Record)
    requires { (used < record_count words.old) × (parent < record_count words.old)
        × (gap.prev < record_count words.old) }
    ensures { words.new ≡ inserted words.old used parent gap.prev gap.next new }
{
    store::write_record(words, used, new, gap.next);
    link(words, parent, gap.prev, used);
}
