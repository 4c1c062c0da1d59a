// A value's own four lines.
ghost use Rattle.row.specs.Row.{kind_word};
ghost use Rattle.row.specs.Words.{word};
ghost use Rattle.output.specs.Wrote.{Wrote};
ghost use Rattle.listed.specs.Listed.{bytes_of};
ghost use Rattle.listed.specs.Walking.{key_shown, childless, kind_shown, item_in};
ghost use Rattle.listing.specs.Lines.{line, key_item, text_item, own_lines};

use listed::Item;
use output::Output;
use row::Lent;

// Writes a value's key: `-` for none, `i` and an Int's value, or `s` and a String's bytes.
fn write_key(lent: Lent, item: Item, out: &mut Output)
    ensures { Wrote (key_item (key_shown item.keyed lent.entry.words.now lent.entry.text.now item.n))
        out.old out.new }
{
    if !item.keyed {
        return out.write_byte(b'-');
    }
    match lent.int_key(item.n) {
        Some(int) => {
            out.write_byte(b'i');
            out.write_decimal(int as usize);
        }
        None => {
            out.write_byte(b's');
            out.write_hex(lent.key_part(item.n));
        }
    }
}

// Writes a String's bytes, or `-` for a value of another kind.
fn write_text(lent: Lent, n: u32, out: &mut Output)
    ensures { Wrote (text_item (bytes_of (childless lent.entry.words.now lent.entry.text.now n)))
        out.old out.new }
{
    match lent.string(n) {
        Some(bytes) => out.write_hex(bytes),
        None => out.write_byte(b'-'),
    }
}

// Writes the line of a value's key.
fn write_key_line(lent: Lent, item: Item, out: &mut Output)
    ensures { Wrote
        (line "key=" (key_item (key_shown item.keyed lent.entry.words.now lent.entry.text.now item.n)))
        out.old out.new }
{
    out.write_bytes(b"key=");
    write_key(lent, item, out);
    out.write_byte(b'\n');
}

// Writes the line of a value's kind.
fn write_kind_line(lent: Lent, n: u32, out: &mut Output)
    ensures { Wrote (line "kind=" (kind_shown (word lent.entry.words.now n kind_word))) out.old out.new }
{
    out.write_bytes(b"kind=");
    out.write_bytes(listed::kind_name(lent, n));
    out.write_byte(b'\n');
}

// Writes the line of a value's text.
fn write_text_line(lent: Lent, n: u32, out: &mut Output)
    ensures { Wrote
        (line "text=" (text_item (bytes_of (childless lent.entry.words.now lent.entry.text.now n))))
        out.old out.new }
{
    out.write_bytes(b"text=");
    write_text(lent, n, out);
    out.write_byte(b'\n');
}

// Writes a value's own four lines.
pub(crate) fn write_lines(lent: Lent, item: Item, out: &mut Output)
    ensures { Wrote (own_lines (item_in lent.entry.words.now lent.entry.text.now item)) out.old out.new }
{
    out.write_number(b"level=", item.level);
    write_key_line(lent, item, out);
    write_kind_line(lent, item.n, out);
    write_text_line(lent, item.n, out);
}
