// Keys compared, in the order of crate key: where the key of a record stands to one that is looked for, by its bytes or
// by its tag (crate tags).
ghost use Rattle.std.specs.Prelude.{◌≡◌, ◌≢◌, true, false, length};
ghost use Prim.Native.Nat.{Ordering as NatOrdering};
ghost use Prim.Native.Nat.{◌+◌, ◌<◌, ◌≤◌};
ghost use Rattle.decode.specs.Decoding.{decoded};
ghost use Rattle.row.specs.Row.{key_kind_word, int_key_kind};
ghost use Rattle.row.specs.Words.{record_count, word, text_part};
ghost use Rattle.row.specs.Kinds.{IntKeyOf};
ghost use Rattle.key.specs.KeyOrder.{compare_bytes, compare_keys};
ghost use Rattle.key.specs.Keys.{Key, str, int as int_key};
ghost use Rattle.tags.specs.Tags.{ordering_of, tag_of, Sought};
ghost use Rattle.records.specs.Keys.{key_at, told_key, InText, sought_key};
ghost use Rattle.records.specs.Records.{key_words_at};

use decode::Decoder;
use key::KeyKind;
use std::cmp::Ordering;

// The key of a record, as its words and the text hold it.
#[derive(Clone, Copy)]
enum Stored<'a> {
    Int(u32),
    String(&'a [u8]),
}

// The value of record n's key where it is an Int.
// Stays beside `Lent::int_key`, which tests at each word that the record is there; here that is known.
fn int_key(words: &[u32], n: u32) -> Option<u32>
    requires { n < record_count words.now }
    ensures { IntKeyOf words.now n result }
{
    match row::KeyKind::try_from(row::get_word(words, n, row::KEY_KIND)) {
        Ok(row::KeyKind::Int) => Some(row::get_word(words, n, row::KEY)),
        _ => None,
    }
}

// The bytes of record n's key, a String.
fn name_of<'a>(words: &[u32], text: &'a [u8], n: u32) -> &'a [u8]
    requires inside { (n < record_count words.now) × InText text.now (key_words_at words.now n) }
    requires is_string { word words.now n key_kind_word ≢ int_key_kind }
    ensures { key_at words.now text.now n ≡ str result.now }
{
    let start = row::get_word(words, n, row::KEY) as usize;
    let end = start + row::get_word(words, n, row::KEY_LEN) as usize;
    &text[start..end]
}

// The key of record n. All but an Int is a String.
fn key_of<'a>(words: &[u32], text: &'a [u8], n: u32) -> Stored<'a>
    requires { (n < record_count words.now) × InText text.now (key_words_at words.now n) }
    ensures { key_at words.now text.now n ≡ told_key result }
{
    match int_key(words, n) {
        Some(int) => Stored::Int(int),
        None => Stored::String(name_of(words, text, n)),
    }
}

// The order of some bytes and those that a raw segment decodes to. The segment is decoded on the way and nothing is
// written, so that a key that is there already is found however little text is left.
fn compare_escaped(bytes: &[u8], raw: &[u8]) -> Ordering
    ensures { ordering_of result ≡ compare_bytes bytes.now (decoded raw.now) }
{
    bytes.iter().copied().cmp(Decoder::new(raw))
}

// Where the key of record n stands to the one that is looked for: a String's bytes, which are to be decoded on the way
// where they are escaped.
// Stays by cases: what is looked for may be a raw segment, of which no derived order speaks.
pub(crate) fn compare_key(
    words: &[u32],
    text: &[u8],
    n: u32,
    key: KeyKind,
    bytes: &[u8],
    escaped: bool,
) -> Ordering
    requires { (n < record_count words.now) × InText text.now (key_words_at words.now n) }
    ensures { ordering_of result ≡ compare_keys (key_at words.now text.now n)
        (sought_key key escaped bytes.now) }
{
    let own = key_of(words, text, n);
    if let KeyKind::Int(int) = key {
        return match own {
            Stored::Int(own) => own.cmp(&int),
            Stored::String(_) => Ordering::Greater,
        };
    }
    match own {
        Stored::Int(_) => Ordering::Less,
        Stored::String(own) if escaped => compare_escaped(own, bytes),
        Stored::String(own) => tags::compare_bytes(own, bytes),
    }
}

// The tag of record n's key.
pub fn tag_at(words: &[u32], text: &[u8], n: u32) -> u64
    requires { (n < record_count words.now) × InText text.now (key_words_at words.now n) }
    ensures { result ≡ tag_of (key_at words.now text.now n) }
{
    if let Some(int) = int_key(words, n) {
        return u64::from(int);
    }
    let start = row::get_word(words, n, row::KEY) as usize;
    let len = row::get_word(words, n, row::KEY_LEN) as usize;
    tags::STRING_TAG + tags::head(text, start, len) / 2
}

// The tag of a key: an Int, or else a String of that part of the text.
// Stays beside `tag_at`: one takes the key as a record has it, the other as it is looked for; they share `tags::head`.
pub fn tag_of(key: KeyKind, text: &[u8], start: usize, len: usize) -> u64
    requires { start + len ≤ length text.now }
    ensures { result ≡ tag_of (sought_key key false (text_part text.now start len)) }
{
    if let KeyKind::Int(int) = key {
        return u64::from(int);
    }
    tags::STRING_TAG + tags::head(text, start, len) / 2
}

// Where the key of record n stands to the one that is looked for, by its tag and its decoded bytes: most keys are told
// apart by their tags, and those of fewer than eight bytes then by their lengths.
pub fn compare_tagged(words: &[u32], text: &[u8], n: u32, tag: u64, name: &[u8]) -> Ordering
    requires { (n < record_count words.now) × InText text.now (key_words_at words.now n) }
    ensures { (k : Key) → Sought k tag name.now
        → ordering_of result ≡ compare_keys (key_at words.now text.now n) k }
{
    let t = tag_at(words, text, n);
    if t != tag {
        return t.cmp(&tag);
    }
    if tag < tags::STRING_TAG {
        return Ordering::Equal;
    }
    let len = row::get_word(words, n, row::KEY_LEN) as usize;
    if len < 8 && name.len() < 8 {
        return len.cmp(&name.len());
    }
    tags::compare_bytes(name_of(words, text, n), name)
}

// Whether record n's key is the one that is looked for: an Int, or else a String of those bytes.
pub fn has_key(words: &[u32], text: &[u8], n: u32, key: KeyKind, name: &[u8]) -> bool
    requires { (n < record_count words.now) × InText text.now (key_words_at words.now n) }
    ensures { result ≡ true → compare_keys (key_at words.now text.now n)
        (sought_key key false name.now) ≡ NatOrdering.eq }
{
    let own = key_of(words, text, n);
    if let KeyKind::Int(int) = key {
        return match own {
            Stored::Int(own) => own == int,
            Stored::String(_) => false,
        };
    }
    match own {
        Stored::Int(_) => false,
        Stored::String(own) => tags::same_bytes(own, name),
    }
}
