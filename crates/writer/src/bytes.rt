// Bytes written one after the other. A byte stands where the output has room for it, and the place of the next byte
// goes on past the output's end, so that the same writers measure and write. Past the length limit nothing counts any
// more: the place stays at the limit and one more. Each writer leaves all else in the output as it was.
// Long runs of bytes are written at once: where nothing of them can be stored, their length is enough; where there is
// room for all of them, they are stored without a test at each byte, which the compiler then does many at a time.
ghost use Rattle.std.specs.Prelude.{◌≡◌, false, [], ◌∷◌, ◌+◌, ◌*◌, ◌≤◌, length, take, drop, get_or};
ghost use Rattle.config.specs.Limits.{max_len};
ghost use Rattle.output.specs.Numbers.{decimal};
ghost use Rattle.output.specs.Output.{page};
ghost use Rattle.ser.specs.Escaping.{is_reserved, escape, escaped_byte, escaped};
ghost use Rattle.writer.specs.Pages.{Puts};
ghost use Rattle.writer.specs.Runs.{any_of, any_reserved, count_reserved, plain_byte, advanced, digits};
ghost use Rattle.writer.specs.Runs.{has_room, has_room_again, Room};
ghost use Rattle.writer.specs.Walking.{Copies};

use config::Config;
use output::numbers;

// The digits of a number turned round: the first of them is the lowest of `back`.
#[derive(Clone, Copy)]
pub struct Digits {
    pub back: u64,
    pub len: usize,
}

// Writes a byte.
// Stay apart, `out` and `at`: the walk keeps `at` in `Progress`, without the slice, and specs/Walking speaks of both.
pub(crate) fn put(byte: u8, out: &mut [u8], at: usize) -> usize
    ensures { Puts (byte ∷ []) (page out.old at) (page out.new result) }
{
    if Config::MAX_LEN < at {
        return at;
    }
    if at < out.len() {
        out[at] = byte;
    }
    at + 1
}

// Whether a byte must be escaped. Tests in a row are compiled to a look at one bit, which those of `matches!` are not.
fn is_reserved(b: u8) -> bool
    ensures { result ≡ is_reserved b }
{
    b == b'%' || b == b'+' || b == b'&' || b == b'=' || b == b'[' || b == b']'
}

// Writes a byte as an escape.
pub(crate) fn write_escape(b: u8, out: &mut [u8], at: usize) -> usize
    ensures { Puts (escape b) (page out.old at) (page out.new result) }
{
    let high = put(b'%', out, at);
    let low = put(numbers::hex_digit(b / 16), out, high);
    put(numbers::hex_digit(b % 16), out, low)
}

// Writes a byte: a space as '+', a reserved one as an escape, any other as it is.
fn write_escaped_byte(b: u8, out: &mut [u8], at: usize) -> usize
    ensures { Puts (escaped_byte b) (page out.old at) (page out.new result) }
{
    if is_reserved(b) {
        return write_escape(b, out, at);
    }
    put(plain_byte(b), out, at)
}

// Writes each byte so.
pub(crate) fn write_escaped(bytes: &[u8], out: &mut [u8], at: usize) -> usize
    ensures { Puts (escaped bytes.now) (page out.old at) (page out.new result) }
{
    let mut next = at;
    for byte in bytes {
        next = write_escaped_byte(*byte, out, next);
    }
    next
}

// Whether so many bytes can all be stored from the place on.
fn has_room(len: usize, out: &[u8], at: usize) -> bool
    ensures { result ≡ has_room len (length out.now) at }
{
    let end = out.len().min(Config::MAX_LEN);
    at <= end && len <= end - at
}

// The place behind so many bytes more.
fn advance(at: usize, len: usize) -> usize
    ensures { result ≡ advanced at len }
{
    if Config::MAX_LEN < at {
        return at;
    }
    at.saturating_add(len).min(Config::MAX_LEN + 1)
}

// Whether one of two bytes stands among these. All are looked at, with two compares a byte: so many are looked at at
// once, which neither an end at the first hit nor more compares would allow.
fn holds(bytes: &[u8], x: u8, y: u8) -> bool
    ensures { result ≡ any_of x y bytes.now }
{
    bytes
        .iter()
        .fold(false, |hit, b| hit | (*b == x) | (*b == y))
}

// Whether one of the bytes must be escaped.
fn any_reserved(bytes: &[u8]) -> bool
    ensures { result ≡ any_reserved bytes.now }
{
    holds(bytes, b'%', b'+') | holds(bytes, b'&', b'=') | holds(bytes, b'[', b']')
}

// How many of them must be.
fn count_reserved(bytes: &[u8]) -> usize
    ensures { result ≡ count_reserved bytes.now }
{
    bytes.iter().filter(|b| is_reserved(**b)).count()
}

// A byte that needs no escape, as it is written.
fn plain_byte(b: u8) -> u8
    ensures { result ≡ plain_byte b }
{
    if b == b' ' { b'+' } else { b }
}

// Writes bytes that need no escape where there is room for all of them.
fn lay(bytes: &[u8], out: &mut [u8], at: usize) -> usize
    requires { Room (length bytes.now) out.old at × (any_reserved bytes.now ≡ false) }
    ensures { Puts (escaped bytes.now) (page out.old at) (page out.new result) }
{
    for (i, byte) in bytes.iter().enumerate() {
        out[at + i] = plain_byte(*byte);
    }
    at + bytes.len()
}

// Writes a byte escaped where there is room for an escape.
fn lay_byte(b: u8, out: &mut [u8], at: usize) -> usize
    requires { Room 3 out.old at }
    ensures { Puts (escaped_byte b) (page out.old at) (page out.new result) }
{
    if is_reserved(b) {
        out[at] = b'%';
        out[at + 1] = numbers::hex_digit(b / 16);
        out[at + 2] = numbers::hex_digit(b % 16);
        return at + 3;
    }
    out[at] = plain_byte(b);
    at + 1
}

// Writes bytes escaped where there is room for an escape each.
fn lay_each(bytes: &[u8], out: &mut [u8], at: usize) -> usize
    requires { Room (3 * length bytes.now) out.old at }
    ensures { Puts (escaped bytes.now) (page out.old at) (page out.new result) }
{
    let mut next = at;
    for byte in bytes {
        next = lay_byte(*byte, out, next);
    }
    next
}

// Writes bytes that need no escape.
fn write_plain(bytes: &[u8], out: &mut [u8], at: usize) -> usize
    requires { any_reserved bytes.now ≡ false }
    ensures { Puts (escaped bytes.now) (page out.old at) (page out.new result) }
{
    if out.len() <= at {
        return advance(at, bytes.len());
    }
    if has_room(bytes.len(), out, at) {
        return lay(bytes, out, at);
    }
    write_escaped(bytes, out, at)
}

// Writes bytes of which some need an escape. No more of them than the length limit: so three times their count is no
// overflow.
fn write_reserved(bytes: &[u8], out: &mut [u8], at: usize) -> usize
    requires { length bytes.now ≤ max_len }
    ensures { Puts (escaped bytes.now) (page out.old at) (page out.new result) }
{
    if out.len() <= at {
        return advance(at, bytes.len() + 2 * count_reserved(bytes));
    }
    if has_room(3 * bytes.len(), out, at) {
        return lay_each(bytes, out, at);
    }
    write_escaped(bytes, out, at)
}

// Writes bytes escaped, as `write_escaped` does, faster than it where they are many. Never taken into its callers: its
// loops would stand in the way of short keys and values, which most are.
#[inline(never)]
fn write_long(bytes: &[u8], out: &mut [u8], at: usize) -> usize
    ensures { Puts (escaped bytes.now) (page out.old at) (page out.new result) }
{
    if Config::MAX_LEN < bytes.len() {
        return write_escaped(bytes, out, at);
    }
    if any_reserved(bytes) {
        return write_reserved(bytes, out, at);
    }
    write_plain(bytes, out, at)
}

// Writes bytes escaped, at once where they are many. Always taken into its callers: short bytes then cost no call.
#[inline(always)]
pub(crate) fn write_text(bytes: &[u8], out: &mut [u8], at: usize) -> usize
    ensures { Puts (escaped bytes.now) (page out.old at) (page out.new result) }
{
    if 16 <= bytes.len() {
        return write_long(bytes, out, at);
    }
    write_escaped(bytes, out, at)
}

// The digits of a number, turned round.
// Stays a `while`: digits are taken until none is left, which no range tells, so a `for` is no plainer.
fn turned(n: u32) -> Digits
    ensures { digits result ≡ decimal n }
{
    let mut rest = (n / 10) as u64;
    let mut back = (n % 10) as u64;
    let mut len = 1;
    while 0 < rest {
        back = 10 * back + rest % 10;
        rest /= 10;
        len += 1;
    }
    Digits { back, len }
}

// Writes a number in decimal. Its digits are turned round first, so that they come out from the first on with no room
// to hold them and no call for each.
// Stays beside output's, which calls itself for each digit, and which no length limit stops.
pub(crate) fn write_decimal(n: u32, out: &mut [u8], at: usize) -> usize
    ensures { Puts (decimal n) (page out.old at) (page out.new result) }
{
    let Digits { mut back, len } = turned(n);
    let mut next = at;
    for _written in 0..len {
        next = put(b'0' + (back % 10) as u8, out, next);
        back /= 10;
    }
    next
}

// Writes once more so many bytes from `start` on, all of which stand before the place, where there is room for them.
fn lay_again(start: usize, len: usize, out: &mut [u8], at: usize) -> usize
    requires { Room len out.old at × (start + len ≤ at) }
    ensures { Puts (take len (drop start out.old))
        (page out.old at) (page out.new result) }
{
    for i in 0..len {
        out[at + i] = out[start + i];
    }
    at + len
}

// Whether the bytes from `start` to `end` all stand before the place and can all be stored once more from it on.
fn has_room_again(start: usize, end: usize, out: &[u8], at: usize) -> bool
    requires { start ≤ end }
    ensures { result ≡ has_room_again start end (length out.now) at }
{
    end <= at && has_room(end - start, out, at)
}

// Writes once more the bytes that stand from `start` to `end`, byte by byte.
// Stays by the index: the same slice is read and written, so no iterator can lend it meanwhile.
fn copy_each(start: usize, end: usize, out: &mut [u8], at: usize) -> usize
    ensures { Copies start end (page out.old at) (page out.new result) }
{
    let mut next = at;
    for i in start..end {
        let byte = out.get(i).copied().unwrap_or(0);
        next = put(byte, out, next);
    }
    next
}

// Writes once more the bytes that stand from `start` to `end`: where nothing of them can be stored, only the place goes
// on; where there is room for them, they are stored at once. There is one call of `copy_each`, so that the compiler
// takes it in: with two it didn't, and deep trees took half as long again.
pub(crate) fn copy(start: usize, end: usize, out: &mut [u8], at: usize) -> usize
    ensures { Copies start end (page out.old at) (page out.new result) }
{
    if end <= start {
        return at;
    }
    if out.len() <= at {
        return advance(at, end - start);
    }
    if has_room_again(start, end, out, at) {
        return lay_again(start, end - start, out, at);
    }
    copy_each(start, end, out, at)
}
