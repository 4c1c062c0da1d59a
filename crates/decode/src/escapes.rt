// What stands at a '%': a byte that two hex digits name, or bytes that stay as they are.
ghost use Rattle.std.specs.Prelude.{◌≡◌};
ghost use Rattle.decode.specs.Hex.{digit_of, hex_value};
ghost use Rattle.decode.specs.Laying.{Escapes};

// The values of all bytes as hex digits, and 16 for those that are none. Kept by hand: of Options the table would be
// written one entry a line, which is no plainer; `hex_value` alone reads it.
static HEX_VALUES: [u8; 256] = [
    16, 16, 16, 16, 16, 16, 16, 16, 16, 16, 16, 16, 16, 16, 16, 16, 16, 16, 16, 16, 16, 16, 16, 16,
    16, 16, 16, 16, 16, 16, 16, 16, 16, 16, 16, 16, 16, 16, 16, 16, 16, 16, 16, 16, 16, 16, 16, 16,
    0, 1, 2, 3, 4, 5, 6, 7, 8, 9, 16, 16, 16, 16, 16, 16, 16, 10, 11, 12, 13, 14, 15, 16, 16, 16,
    16, 16, 16, 16, 16, 16, 16, 16, 16, 16, 16, 16, 16, 16, 16, 16, 16, 16, 16, 16, 16, 16, 16, 10,
    11, 12, 13, 14, 15, 16, 16, 16, 16, 16, 16, 16, 16, 16, 16, 16, 16, 16, 16, 16, 16, 16, 16, 16,
    16, 16, 16, 16, 16, 16, 16, 16, 16, 16, 16, 16, 16, 16, 16, 16, 16, 16, 16, 16, 16, 16, 16, 16,
    16, 16, 16, 16, 16, 16, 16, 16, 16, 16, 16, 16, 16, 16, 16, 16, 16, 16, 16, 16, 16, 16, 16, 16,
    16, 16, 16, 16, 16, 16, 16, 16, 16, 16, 16, 16, 16, 16, 16, 16, 16, 16, 16, 16, 16, 16, 16, 16,
    16, 16, 16, 16, 16, 16, 16, 16, 16, 16, 16, 16, 16, 16, 16, 16, 16, 16, 16, 16, 16, 16, 16, 16,
    16, 16, 16, 16, 16, 16, 16, 16, 16, 16, 16, 16, 16, 16, 16, 16, 16, 16, 16, 16, 16, 16, 16, 16,
    16, 16, 16, 16, 16, 16, 16, 16, 16, 16, 16, 16, 16, 16,
];

// The value of a byte as a hex digit, 16 if it is none.
fn value_of(b: u8) -> u8
    ensures { result ≡ digit_of b }
{
    HEX_VALUES[usize::from(b)]
}

// The value of a hex digit.
fn hex_value(b: u8) -> Option<u8>
    ensures { result ≡ hex_value b }
{
    let value = value_of(b);
    if value < 16 { Some(value) } else { None }
}

// What a '%' makes of itself and the bytes after it: the byte that the next two name, or itself and so many bytes after
// it that stay as they are.
// Stays an enum of its own: bytes that are kept are no error, which `Err` of a Result would say.
#[derive(Clone, Copy)]
pub(crate) enum Escape {
    Byte(u8),
    Kept(usize),
}

// What a '%' stands for, by the bytes after it.
pub(crate) fn escape_of(after: &[u8]) -> Escape
    ensures { Escapes after.now result }
{
    let [y, z, ..] = after else {
        return Escape::Kept(after.len());
    };
    match (hex_value(*y), hex_value(*z)) {
        (Some(h), Some(l)) => Escape::Byte(16 * h + l),
        (None, _) => Escape::Kept(1),
        (Some(_), None) => Escape::Kept(2),
    }
}
