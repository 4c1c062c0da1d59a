// What key a raw segment is: the work of `collect_key` (the source's src/de/parse.rs) on the segment's bytes.
// The rule is in specs/Keys and specs/Collected, and specs/Zeros has what the key setting does to it; specs/Leading is
// the one pass that tests for digits and sums them; specs/KeyOrder is the order of keys, which the definitions and the
// store cite. Below it stand the settings (config), whose record the rule takes, decoding (decode), digits (ascii) and
// laws.
#![tactic(auto)]

ghost use Rattle.std.specs.Prelude.{◌≡◌, List, ℕ};
ghost use Rattle.key.specs.Collected.{collected, key_in};
ghost use Rattle.key.specs.Leading.{LongestInt, Tells};

use config::Config;

// The kind of key that a segment is (READING, 'Keys'): none, an Int of a value, or a String, its bytes decoded.
// Kept by hand: the empty key is a kind of `key_in`, and an Option of the others would make each match two.
#[derive(Clone, Copy)]
pub enum KeyKind {
    None,
    Int(u32),
    String,
}

// The longest Int that bytes begin with: how many digits it has, and its value. Of none both are 0. Kept by hand:
// `LongestInt` has no digits as a longest Int of length 0, so an Option would tell nothing more.
#[derive(Clone, Copy)]
pub struct LeadingInt {
    pub len: usize,
    pub value: u32,
}

// The greatest Int.
const MAX_INT: u64 = 4294967295;

// The longest Int that the bytes begin with. Each digit is tested and summed at once; the pass ends at the first byte
// that is none, or whose digit would make the sum too large, or with `zeros` on a zero in front needless: digits whose
// value is below their number start with one.
pub fn leading_int(config: Config, bytes: &[u8]) -> LeadingInt
    ensures { LongestInt config bytes.now result }
{
    let mut value: u64 = 0;
    for (len, b) in bytes.iter().enumerate() {
        let leading = LeadingInt {
            len,
            value: value as u32,
        };
        if !b.is_ascii_digit() {
            return leading;
        }
        let sum = value * 10 + u64::from(*b - b'0');
        if config.zeros & (value < len as u64) {
            return leading;
        }
        if MAX_INT < sum {
            return leading;
        }
        value = sum;
    }
    LeadingInt {
        len: bytes.len(),
        value: value as u32,
    }
}

// The kind of key that the first `len` bytes are, by the longest Int that they begin with and no fewer than its digits.
// Nothing is decoded here: of a String only the kind is answered.
pub fn kind_of(leading: LeadingInt, len: usize) -> KeyKind
    ensures { (config : Config) (s : List ℕ) → LongestInt config s leading → Tells config s leading len result }
{
    if len == 0 {
        return KeyKind::None;
    }
    if leading.len == len {
        return KeyKind::Int(leading.value);
    }
    KeyKind::String
}

// The kind of key that a segment is.
pub fn key_of(config: Config, segment: &[u8]) -> KeyKind
    ensures { key_in result segment.now ≡ collected config segment.now }
{
    let leading = leading_int(config, segment);
    kind_of(leading, segment.len())
}
