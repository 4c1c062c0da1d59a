// A segment as a key or a value. Nothing is decoded here: of a String only the kind is answered, beside the bounds of
// its raw segment.
ghost use Rattle.std.specs.Prelude.{◌≡◌, ◌≤◌, length};
ghost use Rattle.key.specs.Collected.{collected, key_in};
ghost use Rattle.cursor.specs.Segments.{segment};
ghost use Rattle.cursor.specs.Collected.{KeyTaken, ValueIs};

use crate::finding::value_end;
use crate::scanning::{Until, take_until};
use crate::taking::{Cursor, Taken};
use config::Config;
use key::KeyKind;
use reading::LeafKind;

// A key, and the taking that ended it, whose cursor has its segment.
#[derive(Clone, Copy)]
pub struct CollectedKey {
    pub key: KeyKind,
    pub taken: Taken,
}

// A value: its kind, where its raw segment ends, and the place after the taking that ended it.
#[derive(Clone, Copy)]
pub struct CollectedValue {
    pub leaf: LeafKind,
    pub end: usize,
    pub place: usize,
}

// The key of the cursor's segment: none if it is empty.
pub fn collect_key(input: &[u8], config: Config, cursor: Cursor) -> KeyKind
    requires { (cursor.start ≤ cursor.end) × (cursor.end ≤ length input.now) }
    ensures { key_in result (segment input.now cursor.start cursor.end)
        ≡ collected config (segment input.now cursor.start cursor.end) }
{
    let start = cursor.start;
    let end = cursor.end;
    key::key_of(config, &input[start..end])
}

// The key that starts at a place, and the taking that ends it. The digits that it begins with are summed as they are
// passed, since none of them ends a scan; the scan goes on behind them, and tells by its end whether they are all.
pub fn take_key(input: &[u8], config: Config, until: Until, place: usize) -> CollectedKey
    requires { place ≤ length input.now }
    ensures { KeyTaken until config input.now place result }
{
    let leading = key::leading_int(config, &input[place..]);
    let behind = Cursor {
        place: place + leading.len,
        start: place,
        end: place,
    };
    let taken = take_until(input, config, until, behind);
    let segment = taken.cursor;
    let key = key::kind_of(leading, segment.end - place);
    CollectedKey { key, taken }
}

// The value that starts at a place: the bytes up to `&` or the end. That is so with either flag, since no escaped
// bracket holds `&`.
pub fn collect_value(input: &[u8], config: Config, place: usize) -> CollectedValue
    requires { place ≤ length input.now }
    ensures { ValueIs config input.now place result }
{
    let end = value_end(input, place);
    let leaf = if end == place {
        LeafKind::Null
    } else {
        LeafKind::String
    };
    CollectedValue {
        leaf,
        end,
        place: end + 1,
    }
}
