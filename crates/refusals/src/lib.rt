// The refusals, each said once, and their numbers: what a call answers where it doesn't do what it was asked.
// Definitions and code take this very enum; `code` (specs/Codes) is its number, which `u32::from` gives. 27 and 28 are
// kept for calls to come.
// Nothing stands below it.
#![tactic(auto)]

ghost use Rattle.std.specs.Prelude.{◌≡◌};
ghost use Rattle.refusals.specs.Codes.{code};

// READING, 'Refusals', each with its number. 24 and 25 are asked before 1, and 16 to 23 and 26 once the reading is
// accepted.
#[derive(Clone, Copy, PartialEq, Eq)]
pub enum Refusal {
    // Before the first byte: the depth above its limit, the input above its, fewer words lent than a record has.
    TooDeep = 1,
    TooLong = 2,
    NoRecord = 3,
    // The input ends right behind a `[`, or before the `]` of a key.
    EndAfterOpening = 4,
    EndBeforeClosing = 5,
    // `[]` where a Map stands, or a single value.
    SequenceOnMap = 6,
    SequenceOnSingle = 7,
    // A map is needed where a Sequence stands, or a String, or else Null or NoValue.
    MapOnSequence = 8,
    MapOnString = 9,
    MapOnNull = 10,
    // A byte that may not follow the `]` of a key, a `[` behind `[]`, a byte that may not follow `[]`.
    ByteAfterKey = 11,
    OpeningAfterBrackets = 12,
    ByteAfterBrackets = 13,
    // No space for a record, or for text.
    TooFewRecords = 14,
    TooLittleText = 15,
    // Of a field: the root is a Sequence or Uninitialized, the name isn't there, the kind isn't as asked for.
    WrongRoot = 16,
    NoSuchField = 17,
    WrongKind = 18,
    // More values than the one that a text has, an index that a list lacks, bytes that aren't UTF-8.
    SeveralValues = 19,
    MissingIndex = 20,
    NotUtf8 = 21,
    // A list that is lent fewer than two words for each element.
    ShortSlice = 22,
    // Of a sheet: a page that has no room for a line for each value.
    ShortPage = 23,
    // Of many names: an end below the one before it or past the names, fewer than three words an answer.
    WrongEnds = 24,
    ShortAnswers = 25,
    // Of a writing: more bytes than there is room for, or than an input may have.
    ShortOutput = 26,
}

// The number of a refusal.
impl From<Refusal> for u32 {
    ghost from_gives = { λ refusal number. number ≡ code refusal };

    fn from(refusal: Refusal) -> u32 {
        refusal as u32
    }
}
