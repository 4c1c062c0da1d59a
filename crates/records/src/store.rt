// A record's key and value, as the words that they take (crate row), read and written together.
ghost use Rattle.std.specs.Prelude.{◌≡◌, ◌<◌};
ghost use Rattle.row.specs.Words.{record_count};
ghost use Rattle.records.specs.Records.{value_at, key_fields, with_words, with_value, with_record};

// The words of a key: its kind, an Int's value or a String's offset in the text, and a String's length.
// Stays words, the kind too: a record is read and written back as it is, whatever number stands for its kind.
#[derive(Clone, Copy)]
pub struct KeyWords {
    pub kind: u32,
    pub offset: u32,
    pub len: u32,
}

// The words of a value without its children: its kind, and a String's offset in the text and length.
// Stays words for the same reason.
#[derive(Clone, Copy)]
pub struct ValueWords {
    pub kind: u32,
    pub offset: u32,
    pub len: u32,
}

// A record without its links to other records.
#[derive(Clone, Copy)]
pub struct Record {
    pub key: KeyWords,
    pub value: ValueWords,
}

// The value of record n, without its children.
// Stays a clause, that n is one of the records: it is said of the words as they are at the call. So in `keys`.
pub fn get_value(words: &[u32], n: u32) -> ValueWords
    requires { n < record_count words.now }
    ensures { result ≡ value_at words.now n }
{
    ValueWords {
        kind: row::get_word(words, n, row::KIND),
        offset: row::get_word(words, n, row::TEXT),
        len: row::get_word(words, n, row::TEXT_LEN),
    }
}

// Gives record n another value. Its key and its links stay.
pub fn set_value(words: &mut [u32], n: u32, value: ValueWords)
    requires { n < record_count words.old }
    ensures { words.new ≡ with_value words.old n value }
{
    row::set_word(words, n, row::KIND, value.kind);
    row::set_word(words, n, row::TEXT, value.offset);
    row::set_word(words, n, row::TEXT_LEN, value.len);
}

// Gives record n another key. Its value and its links stay.
fn set_key(words: &mut [u32], n: u32, key: KeyWords)
    requires { n < record_count words.old }
    ensures { words.new ≡ with_words words.old n (key_fields key) }
{
    row::set_word(words, n, row::KEY_KIND, key.kind);
    row::set_word(words, n, row::KEY, key.offset);
    row::set_word(words, n, row::KEY_LEN, key.len);
}

// Writes record n, which has no children yet. The other records stay.
pub fn write_record(words: &mut [u32], n: u32, new: Record, next: u32)
    requires { n < record_count words.old }
    ensures { words.new ≡ with_record words.old n new next }
{
    set_value(words, n, new.value);
    set_key(words, n, new.key);
    row::set_word(words, n, row::CHILD, 0);
    row::set_word(words, n, row::NEXT, next);
}
