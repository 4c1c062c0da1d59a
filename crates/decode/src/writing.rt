// The decoded bytes written in one pass: what needs no decoding at the front is copied, and each '%' is looked at once,
// with the next two bytes. What is written so far is defined in specs/Laying.
ghost use Rattle.std.specs.Prelude.{◌≡◌, ◌++◌, ◌+◌, ◌≤◌, length, take, drop};
ghost use Rattle.decode.specs.Decoding.{decoded};

use crate::blocks::plain_blocks;
use crate::escapes::{Escape, escape_of};
use crate::plus_to_space;

// Writes `bytes` at `n`. The other bytes of `out` stay as they were.
fn put(out: &mut [u8], n: usize, bytes: &[u8])
    requires { n + length bytes.now ≤ length out.old }
    ensures { out.new ≡ take n out.old ++ bytes.now ++ drop (n + length bytes.now) out.old }
{
    for (i, byte) in bytes.iter().enumerate() {
        out[n + i] = *byte;
    }
}

// Writes a failed escape at `n`: the '%' that `rest` begins with, and so many bytes after it. Answers what is left.
// The arms say how far it goes by constants: a step that had to wait for the number would take half as long again.
fn lay_kept<'a>(rest: &'a [u8], count: usize, out: &mut [u8], n: usize) -> &'a [u8]
    requires { (count + 1 ≤ length rest.now) × (n + (count + 1) ≤ length out.old) }
    ensures left { result.now ≡ drop (count + 1) rest.now }
    ensures bytes { out.new ≡ take n out.old ++ take (count + 1) rest.now ++ drop (n + (count + 1)) out.old }
{
    match rest {
        [a, b, others @ ..] if count == 1 => {
            out[n] = *a;
            out[n + 1] = *b;
            others
        }
        [a, b, c, others @ ..] if count == 2 => {
            out[n] = *a;
            out[n + 1] = *b;
            out[n + 2] = *c;
            others
        }
        _ => {
            let (kept, others) = rest.split_at(count + 1);
            put(out, n, kept);
            others
        }
    }
}

// Writes the decoded bytes, which fit, in one pass and answers their number. Further bytes of `out` stay as they were.
// Kept by hand: a turn takes one to three raw bytes, which no iterator over bytes does.
fn lay(raw: &[u8], out: &mut [u8]) -> usize
    requires { length (decoded raw.now) ≤ length out.old }
    ensures length { result ≡ length (decoded raw.now) }
    ensures bytes { out.new ≡ decoded raw.now
        ++ drop (length (decoded raw.now)) out.old }
{
    let mut rest = raw;
    let mut n = 0;
    while let Some((b, after)) = rest.split_first() {
        if *b != b'%' {
            out[n] = plus_to_space(*b);
            n += 1;
            rest = after;
            continue;
        }
        match escape_of(after) {
            Escape::Byte(named) => {
                out[n] = named;
                n += 1;
                rest = &after[2..];
            }
            Escape::Kept(count) => {
                rest = lay_kept(rest, count, out, n);
                n += count + 1;
            }
        }
    }
    n
}

// The same, with blocks at the front that are their own decoding copied. Further bytes of `out` stay as they were.
pub(crate) fn write(raw: &[u8], out: &mut [u8]) -> usize
    requires { length (decoded raw.now) ≤ length out.old }
    ensures length { result ≡ length (decoded raw.now) }
    ensures bytes { out.new ≡ decoded raw.now
        ++ drop (length (decoded raw.now)) out.old }
{
    let (plain, others) = raw.split_at(plain_blocks(raw));
    put(out, 0, plain);
    plain.len() + lay(others, &mut out[plain.len()..])
}
