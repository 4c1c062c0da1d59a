// The walk over the values. The key in front of a value is written once, ahead of its first pair, and is copied from
// there for the others. The functions call each other, and hand on the steps that are left, which fall with each value:
// so the walk over any words ends. `write_value` calls itself through functions that are called in one place each: so
// they are inlined into it, and a record costs one call.
ghost use Rattle.std.specs.Prelude.{◌≡◌, true, cond, ◌||◌, [], ◌∷◌, ◌+◌, ◌≤◌, ◌<◌, ◌^◌, ℕ, eqb, ltb};
ghost use Rattle.ascii.specs.Bytes.{ampersand};
ghost use Rattle.row.specs.Row.{kind_word, map_kind, sequence_kind, no_value_kind};
ghost use Rattle.writer.specs.declared.walk.Part.TheVariants.{Named, Empty};
ghost use Rattle.row.specs.Words.{word, string_part};
ghost use Rattle.reading.specs.Values.{row_key};
ghost use Rattle.reading.specs.Buffers.{row_in, value_within, forest_within};
ghost use Rattle.output.specs.Output.{page};
ghost use Rattle.ser.specs.Writing.{in_sequence};
ghost use Rattle.writer.specs.Pages.{Puts};
ghost use Rattle.writer.specs.Walking.{key_of_record, taken_by, keyed_by, child_at, behind_key, Opens, Moves};
ghost use Rattle.writer.specs.Walking.{inner_part, inner_at, place_under_empty, Writes, WritesTaken, WritesChildren};

use crate::keys::Keyed;
use crate::{Source, bytes, keys};
use row::Kind;

// Where a value stands: the key in front of it, from `start` to `end` in the output, its listed level, and whether the
// elements of a Sequence there repeat that key.
#[derive(Clone, Copy)]
pub struct Place {
    pub start: usize,
    pub end: usize,
    pub level: usize,
    pub repeats: bool,
}

// A value that is to be written: its record, the steps that are left, and where it stands.
#[derive(Clone, Copy)]
pub struct Item {
    pub n: u32,
    pub left: usize,
    pub place: Place,
}

// Which siblings are written, and how: a Map's under keys that aren't empty, a Map's under the empty key, a Sequence's.
// Stays an enum: the children call back into the walk, and `taken_by` and `child_at` of the definitions go by it.
#[derive(Clone, Copy)]
pub enum Part {
    Named,
    Empty,
    Element,
}

// A child that is to be written: how, its record, and where its parent stands; of a Sequence's child, where it stands
// itself.
#[derive(Clone, Copy)]
pub struct Child {
    pub part: Part,
    pub n: u32,
    pub place: Place,
}

// The place of the next byte, and whether the key is written there already and no pair follows it yet.
#[derive(Clone, Copy)]
pub struct Progress {
    pub at: usize,
    pub fresh: bool,
}

// How far the pairs of siblings are written, and whether one of them was skipped: 0 if none was, else 1. (A word, since
// the padding behind a bool costs time.)
#[derive(Clone, Copy)]
pub struct Reached {
    pub progress: Progress,
    pub skipped: usize,
}

// Writes '&' if anything is written so far.
fn separate(out: &mut [u8], at: usize) -> usize
    ensures { Puts (cond (eqb at 0) [] (ampersand ∷ []))
        (page out.old at) (page out.new result) }
{
    if at == 0 {
        return at;
    }
    bytes::put(b'&', out, at)
}

// Writes the key for the next pair, if it isn't there already, with '&' before it if anything is. Answers where it
// stands.
fn open(place: Place, out: &mut [u8], from: Progress) -> Place
    ensures { Opens place result out.old out.new from }
{
    if from.fresh {
        return place;
    }
    let start = separate(out, from.at);
    let end = bytes::copy(place.start, place.end, out, start);
    Place {
        start,
        end,
        ..place
    }
}

// Where a child under the empty key stands, of a Map that stands here: its key has no part of its own.
fn enter_empty(place: Place) -> Place
    requires { place.level + 1 < 2 ^ 64 }
    ensures { result ≡ place_under_empty place }
{
    Place {
        level: place.level + 1,
        repeats: true,
        ..place
    }
}

// Writes `[]` behind a Sequence's key, unless its elements repeat the key. Answers where they stand.
fn bracket(place: Place, out: &mut [u8]) -> Place
    requires { place.level + 1 < 2 ^ 64 }
    ensures { Moves in_sequence place result out.old out.new }
{
    let level = place.level + 1;
    if place.repeats {
        return Place { level, ..place };
    }
    let inner = bytes::put(b'[', out, place.end);
    let end = bytes::put(b']', out, inner);
    Place {
        end,
        level,
        ..place
    }
}

// Where the elements of a Sequence stand, or a Map itself, while its key stands at the end. Writes `[]` behind that of
// a Sequence, unless its elements repeat it, and nothing for a Map.
fn inner_place(part: Part, place: Place, out: &mut [u8]) -> Place
    requires { place.level + 1 < 2 ^ 64 }
    ensures { (kind : ℕ) → part ≡ inner_part kind → Moves (inner_at kind) place result out.old out.new }
{
    match part {
        Part::Element => bracket(place, out),
        _ => place,
    }
}

impl Source<'_> {
    // Whether the root is Uninitialized, as a number that stands for no kind says too.
    pub(crate) fn is_undecided(&self) -> bool
        ensures { result ≡ (ltb (word self.now.lent.words.now 0 kind_word) map_kind
            || ltb no_value_kind (word self.now.lent.words.now 0 kind_word)) }
    {
        matches!(self.lent.kind(0), Ok(Kind::Uninitialized) | Err(_))
    }

    // Whether a child is one of those that are written.
    fn takes(&self, part: Part, n: u32) -> bool
        ensures { result ≡ taken_by part
            (row_key (row_in (keyed_by part) self.now.lent.words.now self.now.lent.text.now n)) }
    {
        match part {
            Part::Named => !self.has_empty_key(n),
            Part::Empty => self.has_empty_key(n),
            Part::Element => true,
        }
    }

    // Writes a named child's own part of its key behind its parent's, which stands at the end. Answers where it stands.
    fn enter_named(&self, child: Child, out: &mut [u8]) -> Place
        requires { child.place.level + 1 < 2 ^ 64 }
        ensures { Moves
            (λ p. child_at Named self.now.config p
            (key_of_record self.now.lent.words.now self.now.lent.text.now child.n))
            child.place result out.old out.new }
    {
        let level = child.place.level + 1;
        let n = child.n;
        let end = self.write_part(Keyed { n, level }, out, child.place.end);
        let deep = keys::is_at_depth(self.config, level);
        Place {
            end,
            level,
            repeats: (self.config.depth == 0) | deep,
            ..child.place
        }
    }

    // Writes a child's own part of its key behind its parent's, which stands at the end. Answers where it stands.
    fn enter(&self, child: Child, out: &mut [u8]) -> Place
        requires { child.place.level + 1 < 2 ^ 64 }
        ensures { Moves (λ p. child_at child.part self.now.config p
            (row_key (row_in (keyed_by child.part) self.now.lent.words.now self.now.lent.text.now child.n)))
            child.place result out.old out.new }
    {
        let part = child.part;
        match part {
            Part::Named => self.enter_named(child, out),
            Part::Empty => enter_empty(child.place),
            Part::Element => child.place,
        }
    }

    // Writes what stands behind the key of a single value. A number that stands for no kind counts as a String's.
    fn write_single(&self, n: u32, out: &mut [u8], at: usize) -> usize
        ensures { Puts (behind_key (word self.now.lent.words.now n kind_word)
            (string_part self.now.lent.words.now self.now.lent.text.now n))
            (page out.old at) (page out.new result) }
    {
        match self.lent.kind(n) {
            Ok(Kind::NoValue) => at,
            Ok(Kind::Null) => bytes::put(b'=', out, at),
            _ => {
                let value = bytes::put(b'=', out, at);
                bytes::write_text(self.lent.string_part(n), out, value)
            }
        }
    }

    // Writes the pairs of a value, of which there are some, behind what is written so far. Its key stands at the end.
    // (Nothing below the root is Uninitialized, so that kind may be taken for a Map's.)
    #[cycle(children)]
    pub(crate) fn write_value(&self, item: Item, out: &mut [u8]) -> usize
        requires { item.place.level + item.left < 2 ^ 64 }
        ensures { Writes self.now.config item.place
            (value_within item.left self.now.lent.words.now self.now.lent.text.now item.n)
            out.old (page out.new result) }
    {
        if item.left == 0 {
            return item.place.end;
        }
        let part = match self.lent.kind(item.n) {
            Ok(Kind::Sequence) => Part::Element,
            Ok(Kind::Map | Kind::Uninitialized) => Part::Named,
            _ => return self.write_single(item.n, out, item.place.end),
        };
        self.write_inner(item, part, out)
    }

    // Writes the pairs of a Map or a Sequence behind what is written so far: those of its children, but of a Map those
    // of the empty key last. Few Maps have it, and the children of the others are walked only once.
    // Stays a clause, that level and steps fit: they stand in one struct in some calls and apart in others.
    // Always taken into its one caller: as a call of its own it would cost each Map and each Sequence one more.
    #[inline(always)]
    #[cycle(children)]
    fn write_inner(&self, item: Item, part: Part, out: &mut [u8]) -> usize
        requires { (0 < item.left) × (item.place.level + item.left < 2 ^ 64)
            × (part ≡ inner_part (word self.now.lent.words.now item.n kind_word))
            × (word self.now.lent.words.now item.n kind_word ≤ sequence_kind) }
        ensures { Writes self.now.config item.place
            (value_within item.left self.now.lent.words.now self.now.lent.text.now item.n)
            out.old (page out.new result) }
    {
        let n = self.lent.word(item.n, row::CHILD);
        let left = item.left - 1;
        let place = inner_place(part, item.place, out);
        let next = self.write_children(Child { part, n, place }, left, out);
        if next.skipped == 0 {
            return next.progress.at;
        }
        let first = Item { n, left, place };
        let end = self.write_empty(first, out, next.progress);
        end.at
    }

    // Writes the pairs of the children from the first on along its siblings, behind the key that stands at the end: a
    // Map's named ones, or elements, in as many steps. Tells whether one was skipped, which is one under the empty key.
    // The next sibling is read last, in both arms: a child's number alone is kept while its value is written. The arms
    // are no function of their own: the structs that it would take and answer cost more than the rest of the turn.
    // Kept by hand: the loop ends with the siblings, and each child is handed the steps that are left; a `for` over the
    // steps would count them up and hand on a difference.
    #[cycle(children)]
    fn write_children(&self, first: Child, steps: usize, out: &mut [u8]) -> Reached
        requires { first.place.level + steps < 2 ^ 64 }
        ensures { WritesTaken first.part self.now.config first.place
            (forest_within steps (keyed_by first.part) self.now.lent.words.now self.now.lent.text.now first.n)
            out.old out.new result }
    {
        let part = first.part;
        let mut n = first.n;
        let mut left = steps;
        let mut at = first.place.end;
        let mut fresh = true;
        let mut skipped = 0usize;
        while n != 0 {
            if left == 0 {
                let progress = Progress { at, fresh };
                return Reached { progress, skipped };
            }
            left -= 1;
            if !self.takes(part, n) {
                skipped = 1;
                n = self.lent.word(n, row::NEXT);
                continue;
            }
            let place = open(first.place, out, Progress { at, fresh });
            let place = self.enter(Child { part, n, place }, out);
            at = self.write_value(Item { n, left, place }, out);
            fresh = false;
            n = self.lent.word(n, row::NEXT);
        }
        let progress = Progress { at, fresh };
        Reached { progress, skipped }
    }

    // Writes the pairs of a Map's children under the empty key, from the first child on along its siblings, behind
    // those of the others. `first` has the place of the Map.
    // Kept beside `write_children`: one function for both would be called in two places, so that a record would cost
    // two calls (DECISIONS, 'The writer').
    #[cycle(children)]
    fn write_empty(&self, first: Item, out: &mut [u8], from: Progress) -> Progress
        requires { first.place.level + first.left < 2 ^ 64 }
        ensures { WritesChildren Empty self.now.config first.place
            (forest_within first.left true self.now.lent.words.now self.now.lent.text.now first.n)
            out.old out.new from result }
    {
        let mut n = first.n;
        let mut left = first.left;
        let mut at = from.at;
        let mut fresh = from.fresh;
        while n != 0 {
            if left == 0 {
                return Progress { at, fresh };
            }
            left -= 1;
            if !self.takes(Part::Empty, n) {
                n = self.lent.word(n, row::NEXT);
                continue;
            }
            let place = enter_empty(open(first.place, out, Progress { at, fresh }));
            at = self.write_value(Item { n, left, place }, out);
            fresh = false;
            n = self.lent.word(n, row::NEXT);
        }
        Progress { at, fresh }
    }
}
