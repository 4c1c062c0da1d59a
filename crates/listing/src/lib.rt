// The values of a reading's outcome, written in listing order: `list` writes the lines of READING, 'The listing', and
// `write_sheet` those of the sheet. One walk serves both.
// The listing is specs/Listing; that `list` writes it of every reading is specs/Complete, and how long it is
// specs/Room. Below it stand the values in listing order (listed), the sheet's lines (sheet), the writers into a lent
// output (output), a record's row (row), the definitions of a reading (reading) and what these stand on.
#![tactic(auto)]

mod lines; // a value's own lines
mod values; // the walk over the values

ghost use Rattle.std.specs.Prelude.{cond, ◌≡◌, eqb};
ghost use mathlib.Core.List.{[], flat_map};
ghost use Rattle.output.specs.Output.{filled, answer_for};
ghost use Rattle.output.specs.Wrote.{Wrote};
ghost use Rattle.listed.specs.Walking.{listed_within};
ghost use Rattle.sheet.specs.Line.{line};
ghost use Rattle.listing.specs.Lines.{own_lines};
ghost use Rattle.listing.specs.Listing.{answer_lines, bad_head};
ghost use Rattle.listing.specs.Bounded.{bounded_listing, outcome_from};

use output::Output;
use reading::Reading;
use row::Lent;
use values::{Lines, Sheet, write_values};

// Writes the lines of an answer's four numbers.
fn write_answer(answer: Reading, out: &mut Output)
    ensures { Wrote (answer_lines answer) out.old out.new }
{
    out.write_number(b"answer=", answer.number as usize);
    out.write_number(b"place=", answer.place as usize);
    out.write_number(b"nodes=", answer.records as usize);
    out.write_number(b"bytes=", answer.bytes as usize);
}

// Writes the lines of an accepted outcome's values; of a refused one, nothing. (Stays by its number: `list` is given
// the four numbers that it prints, and its contract is of any of them.)
fn write_accepted(number: u32, lent: Lent, out: &mut Output)
    ensures { Wrote
        (cond (eqb number 0) (flat_map own_lines (listed_within lent.entry.words.now lent.entry.text.now)) [])
        out.old out.new }
{
    if number == 0 {
        write_values::<Lines>(lent, out);
    }
}

// Writes the listing of an outcome: the answer's four numbers and, if it is accepted, the values that words and text
// hold. Where the output is too short it holds the listing's first bytes, and none is answered; where it is longer, its
// further elements stay as they were.
pub fn list(answer: Reading, words: &[u32], text: &[u8], out: &mut [u8]) -> Option<usize>
    ensures told { result ≡ answer_for
        (bounded_listing (outcome_from answer words.now text.now)) out.old }
    ensures output { out.new ≡ filled
        (bounded_listing (outcome_from answer words.now text.now)) out.old }
{
    let mut page = Output::new(out);
    write_answer(answer, &mut page);
    write_accepted(answer.number, Lent { words, text }, &mut page);
    page.whole()
}

// Writes what the program prints for a bad head, as `list` writes a listing.
pub fn list_bad_head(out: &mut [u8]) -> Option<usize>
    ensures told { result ≡ answer_for bad_head out.old }
    ensures output { out.new ≡ filled bad_head out.old }
{
    let mut page = Output::new(out);
    page.write_bytes(b"answer=head\n");
    page.whole()
}

// Writes the lines of the sheet, one for each value that words and text hold, as many as the output has room for. Its
// further elements stay as they were.
pub fn write_sheet(words: &[u32], text: &[u8], out: &mut [u8])
    ensures { out.new ≡ filled (flat_map line (listed_within words.now text.now)) out.old }
{
    write_values::<Sheet>(Lent { words, text }, &mut Output::new(out));
}
