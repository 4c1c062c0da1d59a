// A key's own part of what is written in front of a value.
ghost use Rattle.std.specs.Prelude.{◌≡◌, ◌<◌, length, cond};
ghost use Rattle.key.specs.Keys.{str, is_int};
ghost use Rattle.output.specs.Output.{page};
ghost use Rattle.ser.specs.Escaping.{escaped_key, escaped_at_depth};
ghost use Rattle.ser.specs.Writing.{is_at_depth, key_at};
ghost use Rattle.writer.specs.Pages.{Puts};
ghost use Rattle.writer.specs.Walking.{key_of_record, is_empty_key};

use crate::{Source, bytes};
use config::Config;

// A keyed record, and the listed level at which it stands.
#[derive(Clone, Copy)]
pub struct Keyed {
    pub n: u32,
    pub level: usize,
}

// Whether a listed level is that of keys at the depth.
pub(crate) fn is_at_depth(config: Config, level: usize) -> bool
    ensures { result ≡ is_at_depth config level }
{
    2 <= level && level - 2 == config.depth
}

// Whether bytes would read as an Int. Most keys start with a letter, which tells that they wouldn't.
fn is_int(config: Config, bytes: &[u8]) -> bool
    requires { 0 < length bytes.now }
    ensures { result ≡ is_int config bytes.now }
{
    if b'9' < bytes[0] {
        return false;
    }
    let leading = key::leading_int(config, bytes);
    leading.len == bytes.len()
}

// Writes a String key escaped; of one that would read as an Int the first digit too.
fn write_string(config: Config, bytes: &[u8], out: &mut [u8], at: usize) -> usize
    ensures { Puts (escaped_key config (str bytes.now))
        (page out.old at) (page out.new result) }
{
    let Some((first, others)) = bytes.split_first() else {
        return at;
    };
    if is_int(config, bytes) {
        let rest = bytes::write_escape(*first, out, at);
        return bytes::write_escaped(others, out, rest);
    }
    bytes::write_text(bytes, out, at)
}

// Writes a String key at the depth: its first byte as it is, the rest escaped.
fn write_string_at_depth(bytes: &[u8], out: &mut [u8], at: usize) -> usize
    ensures { Puts (escaped_at_depth (str bytes.now))
        (page out.old at) (page out.new result) }
{
    let Some((first, others)) = bytes.split_first() else {
        return at;
    };
    let rest = bytes::put(*first, out, at);
    bytes::write_escaped(others, out, rest)
}

impl Source<'_> {
    // Whether the key of record n is the empty String.
    pub(crate) fn has_empty_key(&self, n: u32) -> bool
        ensures { result ≡ is_empty_key (key_of_record self.now.lent.words.now self.now.lent.text.now n) }
    {
        match self.lent.int_key(n) {
            Some(_) => false,
            None => self.lent.key_part(n).is_empty(),
        }
    }

    // Writes the key of record n, without brackets: an Int in decimal, a String escaped, or as one at the depth.
    fn write_key(&self, n: u32, at_depth: bool, out: &mut [u8], at: usize) -> usize
        ensures { Puts (cond at_depth
            (escaped_at_depth (key_of_record self.now.lent.words.now self.now.lent.text.now n))
            (escaped_key self.now.config (key_of_record self.now.lent.words.now self.now.lent.text.now n)))
            (page out.old at) (page out.new result) }
    {
        match self.lent.int_key(n) {
            Some(int) => bytes::write_decimal(int, out, at),
            None if at_depth => write_string_at_depth(self.lent.key_part(n), out, at),
            None => write_string(self.config, self.lent.key_part(n), out, at),
        }
    }

    // Writes the part of a key that isn't empty: bare at level 1 and at the depth, else in brackets.
    pub(crate) fn write_part(&self, keyed: Keyed, out: &mut [u8], at: usize) -> usize
        ensures { Puts (key_at self.now.config keyed.level
            (key_of_record self.now.lent.words.now self.now.lent.text.now keyed.n))
            (page out.old at) (page out.new result) }
    {
        if keyed.level == 1 {
            return self.write_key(keyed.n, false, out, at);
        }
        if is_at_depth(self.config, keyed.level) {
            return self.write_key(keyed.n, true, out, at);
        }
        let inner = bytes::put(b'[', out, at);
        let end = self.write_key(keyed.n, false, out, inner);
        bytes::put(b']', out, end)
    }
}
