// The sheet (READING, 'The sheet'): the values of a tree in listing order, each as a line of fixed columns. Here stand
// its definition and the writer of a line; who walks over the values stands above.
// The columns are specs/Columns, a line specs/Line, the sheet of a tree specs/Sheet; that every line of a reading's
// sheet is 72 characters and a newline is specs/Widths.
// Below it stand the values in listing order (listed), the writers into a lent output (output), a record's row (row)
// and the definitions of a reading (reading).
#![tactic(auto)]

mod cells; // what stands in the columns, whatever it is of

ghost use Rattle.std.specs.Prelude.{◌++◌};
ghost use Rattle.ascii.specs.Texts.{ascii};
ghost use Rattle.row.specs.Row.{kind_word};
ghost use Rattle.row.specs.Words.{word};
ghost use Rattle.output.specs.Numbers.{decimal};
ghost use Rattle.output.specs.Wrote.{Wrote};
ghost use Rattle.listed.specs.Listed.{bytes_of};
ghost use Rattle.listed.specs.Walking.{key_shown, childless, kind_shown, item_in};
ghost use Rattle.sheet.specs.Columns.{level_columns, length_columns, kind_columns, key_columns, text_columns, width};
ghost use Rattle.sheet.specs.Line.{right_aligned, letters, fitted, length_item, key_item, text_item, line};

use listed::Item;
use output::Output;
use row::Lent;

// The widths of the columns: 1 to 3, 5 to 9, 11 to 14, 16 to 40 and 42 to 72.
const LEVEL_WIDTH: usize = 3;

const LENGTH_WIDTH: usize = 5;

const KIND_WIDTH: usize = 4;

const KEY_WIDTH: usize = 25;

const TEXT_WIDTH: usize = 31;

// The bytes of a line: 72 characters and a newline.
pub const LINE_BYTES: usize = 73;

// Writes a level, and a space.
fn write_level(level: usize, out: &mut Output)
    ensures { Wrote (right_aligned (width level_columns) (decimal level) ++ ascii " ") out.old out.new }
{
    cells::write_right(level, LEVEL_WIDTH, out);
    out.write_byte(b' ');
}

// Writes a String's length; of a value of another kind, spaces.
fn write_size(lent: Lent, n: u32, out: &mut Output)
    ensures { Wrote
        (right_aligned (width length_columns)
        (length_item (bytes_of (childless lent.entry.words.now lent.entry.text.now n))))
        out.old out.new }
{
    match lent.string(n) {
        Some(bytes) => cells::write_right(bytes.len(), LENGTH_WIDTH, out),
        None => cells::write_blanks(LENGTH_WIDTH, out),
    }
}

// Writes a value's length, and a space.
fn write_length(lent: Lent, n: u32, out: &mut Output)
    ensures { Wrote
        (right_aligned (width length_columns)
        (length_item (bytes_of (childless lent.entry.words.now lent.entry.text.now n))) ++ ascii " ")
        out.old out.new }
{
    write_size(lent, n, out);
    out.write_byte(b' ');
}

// Writes the first letters of a kind's name, and a space. The name is cut in a room as wide as its columns.
fn write_kind(lent: Lent, n: u32, out: &mut Output)
    ensures { Wrote
        (letters (width kind_columns) (kind_shown (word lent.entry.words.now n kind_word)) ++ ascii " ")
        out.old out.new }
{
    let mut letters = [b' '; KIND_WIDTH];
    Output::new(&mut letters).write_bytes(listed::kind_name(lent, n));
    out.write_bytes(&letters);
    out.write_byte(b' ');
}

// Writes a key: an Int in decimal, a String's bytes; of a value without one, spaces.
fn write_name(lent: Lent, item: Item, out: &mut Output)
    ensures { Wrote
        (fitted (width key_columns)
        (key_item (key_shown item.keyed lent.entry.words.now lent.entry.text.now item.n)))
        out.old out.new }
{
    if !item.keyed {
        return cells::write_blanks(KEY_WIDTH, out);
    }
    match lent.int_key(item.n) {
        Some(int) => cells::write_left(int, KEY_WIDTH, out),
        None => cells::write_fitted(lent.key_part(item.n), KEY_WIDTH, out),
    }
}

// Writes a value's key, and a space.
fn write_key(lent: Lent, item: Item, out: &mut Output)
    ensures { Wrote
        (fitted (width key_columns)
        (key_item (key_shown item.keyed lent.entry.words.now lent.entry.text.now item.n)) ++ ascii " ")
        out.old out.new }
{
    write_name(lent, item, out);
    out.write_byte(b' ');
}

// Writes a String's bytes; of a value of another kind, spaces.
fn write_bytes(lent: Lent, n: u32, out: &mut Output)
    ensures { Wrote
        (fitted (width text_columns)
        (text_item (bytes_of (childless lent.entry.words.now lent.entry.text.now n))))
        out.old out.new }
{
    match lent.string(n) {
        Some(bytes) => cells::write_fitted(bytes, TEXT_WIDTH, out),
        None => cells::write_blanks(TEXT_WIDTH, out),
    }
}

// Writes a value's text, and a newline.
fn write_text(lent: Lent, n: u32, out: &mut Output)
    ensures { Wrote
        (fitted (width text_columns)
        (text_item (bytes_of (childless lent.entry.words.now lent.entry.text.now n))) ++ ascii "\n")
        out.old out.new }
{
    write_bytes(lent, n, out);
    out.write_byte(b'\n');
}

// Writes the line of a value.
pub fn write_line(lent: Lent, item: Item, out: &mut Output)
    ensures { Wrote (line (item_in lent.entry.words.now lent.entry.text.now item)) out.old out.new }
{
    write_level(item.level, out);
    write_length(lent, item.n, out);
    write_kind(lent, item.n, out);
    write_key(lent, item, out);
    write_text(lent, item.n, out);
}
