// What stands in the columns of a line, whatever it is of.
ghost use Rattle.std.specs.Prelude.{◌-◌, ◌≤◌, ◌≡◌, map};
ghost use Rattle.output.specs.Numbers.{decimal};
ghost use Rattle.output.specs.Wrote.{Wrote};
ghost use Rattle.sheet.specs.Line.{blanks, right_aligned, visible, fitted};

use output::{Output, numbers};

// Writes so many spaces.
pub(crate) fn write_blanks(count: usize, out: &mut Output)
    ensures { Wrote (blanks count) out.old out.new }
{
    out.write_repeated(b' ', count);
}

// Writes a number in decimal at the right of so many columns.
pub(crate) fn write_right(n: usize, wide: usize, out: &mut Output)
    ensures { Wrote (right_aligned wide (decimal n)) out.old out.new }
{
    write_blanks(wide.saturating_sub(numbers::decimal_len(n)), out);
    out.write_decimal(n);
}

// Writes a number in decimal at the left of so many columns, of which there are enough for any.
pub(crate) fn write_left(n: u32, wide: usize, out: &mut Output)
    requires { 10 ≤ wide }
    ensures { Wrote (fitted wide (decimal n)) out.old out.new }
{
    out.write_decimal(n as usize);
    write_blanks(wide.saturating_sub(numbers::decimal_len(n as usize)), out);
}

// A byte as it is shown: a full stop stands for what is outside 33 to 126.
fn visible(b: u8) -> u8
    ensures { result ≡ visible b }
{
    match b {
        33..=126 => b,
        _ => b'.',
    }
}

// Writes bytes as they are shown.
fn write_visible(bytes: &[u8], out: &mut Output)
    ensures { Wrote (map visible bytes.now) out.old out.new }
{
    for byte in bytes {
        out.write_byte(visible(*byte));
    }
}

// Writes bytes at the left of so many columns. Where they are too many, `>` stands in the last.
pub(crate) fn write_fitted(bytes: &[u8], wide: usize, out: &mut Output)
    requires { 1 ≤ wide }
    ensures { Wrote (fitted wide bytes.now) out.old out.new }
{
    if bytes.len() <= wide {
        write_visible(bytes, out);
        return write_blanks(wide - bytes.len(), out);
    }
    write_visible(&bytes[..wide - 1], out);
    out.write_byte(b'>');
}
