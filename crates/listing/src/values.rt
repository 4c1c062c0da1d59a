// The walk over the values, in any style. The two writers call each other, and hand on the count of records that are
// left, which falls with each value: so the walk over any words ends, and soon.
ghost use Rattle.std.specs.Prelude.{ℕ, List, ◌+◌, ◌<◌, ◌^◌};
ghost use mathlib.Core.List.{flat_map};
ghost use Rattle.output.specs.Wrote.{Wrote};
ghost use Rattle.sheet.specs.Line.{line};
ghost use Rattle.listed.specs.Listed.{Listed};
ghost use Rattle.listed.specs.Walking.{item_in, first_of_value, first_of_siblings, listed_within};
ghost use Rattle.listing.specs.Lines.{own_lines};
ghost use Rattle.listing.specs.Styles.{WroteValues};

use crate::lines;
use listed::Item;
use output::Output;
use row::{Kind, Lent};

// How a value is written.
pub trait Style {
    // What is shown of it.
    ghost shown: { Listed → List ℕ };

    // Writes what a value shows itself.
    fn write_own(lent: Lent, item: Item, out: &mut Output)
        ensures { Wrote (shown (item_in lent.entry.words.now lent.entry.text.now item)) out.old out.new };
}

// As the four lines of the listing.
#[derive(Clone, Copy)]
pub struct Lines;

impl Style for Lines {
    ghost shown = { own_lines };

    fn write_own(lent: Lent, item: Item, out: &mut Output) {
        lines::write_lines(lent, item, out);
    }
}

// As a line of the sheet.
#[derive(Clone, Copy)]
pub struct Sheet;

impl Style for Sheet {
    ghost shown = { line };

    fn write_own(lent: Lent, item: Item, out: &mut Output) {
        sheet::write_line(lent, item, out);
    }
}

// Writes a value: what it shows itself, then its map, or its sequence. Answers how many records are left to be listed.
#[cycle(values)]
fn write_value<S: Style>(lent: Lent, item: Item, left: usize, out: &mut Output) -> usize
    requires { (0 < left) × (item.level + left < 2 ^ 64) }
    ensures { WroteValues S.shown (first_of_value left lent.entry.words.now lent.entry.text.now item)
        out.old out.new left result }
{
    S::write_own(lent, item, out);
    let n = lent.word(item.n, row::CHILD);
    let level = item.level + 1;
    match lent.kind(item.n) {
        Ok(Kind::Map) => {
            let keyed = true;
            write_map::<S>(lent, Item { n, keyed, level }, left - 1, out)
        }
        Ok(Kind::Sequence) => {
            let keyed = false;
            write_map::<S>(lent, Item { n, keyed, level }, left - 1, out)
        }
        _ => left - 1,
    }
}

// Writes a map: each value from the first on. A sequence's are the same without keys. (Stays a `while`: the words may
// be any, so that no list of siblings is known to end; the count of records that are left ends the walk.)
#[cycle(values)]
fn write_map<S: Style>(lent: Lent, first: Item, left: usize, out: &mut Output) -> usize
    requires { first.level + left < 2 ^ 64 }
    ensures { WroteValues S.shown (first_of_siblings left lent.entry.words.now lent.entry.text.now first)
        out.old out.new left result }
{
    let mut n = first.n;
    let mut more = left;
    while n != 0 {
        if more == 0 {
            return more;
        }
        more = write_value::<S>(lent, Item { n, ..first }, more, out);
        n = lent.word(n, row::NEXT);
    }
    more
}

// Writes the values from the root on, but no more than the words make records.
pub(crate) fn write_values<S: Style>(lent: Lent, out: &mut Output)
    ensures { Wrote (flat_map S.shown (listed_within lent.entry.words.now lent.entry.text.now)) out.old out.new }
{
    let left = lent.words.len() / row::WIDTH;
    if 0 < left {
        let root = Item {
            n: 0,
            keyed: false,
            level: 0,
        };
        write_value::<S>(lent, root, left, out);
    }
}
