// One taking (READING, 'Takings').
ghost use Rattle.std.specs.Prelude.{◌≡◌, ◌≤◌, length, drop};
ghost use Rattle.std.proofs.Math.Option.{some};
ghost use Rattle.reading.specs.Taking.{symbol_of};
ghost use Rattle.cursor.specs.Takings.{yielded, same_symbol, bracket_of, escape_ahead, escape_in, advanced, Next};

use config::Config;

// The place, which is the number of bytes taken, and the bounds of the raw segment that is being read (`index` and
// `acc` in the source).
// Stays indices into the input: a refusal tells its place by them, and contracts speak of places (specs/Takings).
#[derive(Clone, Copy)]
pub struct Cursor {
    pub place: usize,
    pub start: usize,
    pub end: usize,
}

// What a taking yields: `&`, `=`, `[`, `]`, another byte, or the input's end.
#[derive(Clone, Copy, PartialEq, Eq)]
pub enum Symbol {
    Ampersand,
    Equals,
    Opening,
    Closing,
    Other,
    End,
}

// What a taking yields, and the cursor after it.
#[derive(Clone, Copy)]
pub struct Taken {
    pub symbol: Symbol,
    pub cursor: Cursor,
}

impl Symbol {
    // Whether this is that symbol.
    pub fn is(self, symbol: Symbol) -> bool
        ensures { result ≡ same_symbol self symbol }
    {
        self == symbol
    }
}

// The symbol of a byte that is taken alone.
fn symbol_of(b: u8) -> Symbol
    ensures { yielded result ≡ some (symbol_of b) }
{
    match b {
        b'&' => Symbol::Ampersand,
        b'=' => Symbol::Equals,
        b'[' => Symbol::Opening,
        b']' => Symbol::Closing,
        _ => Symbol::Other,
    }
}

// The bracket whose escape bytes start with, exactly `%5B` or `%5D`.
fn escaped_bracket(bytes: &[u8]) -> Option<Symbol>
    ensures { result ≡ bracket_of (escape_ahead bytes.now) }
{
    match *bytes {
        [b'%', b'5', b'B', ..] => Some(Symbol::Opening),
        [b'%', b'5', b'D', ..] => Some(Symbol::Closing),
        _ => None,
    }
}

// The escaped bracket that stands at a place, if the flag is on.
// Stay two parameters, `input` and `config`, here and below: else a clause says `source.entry.input.now`.
fn escape_at(input: &[u8], config: Config, place: usize) -> Option<Symbol>
    requires { place ≤ length input.now }
    ensures { result ≡ bracket_of (escape_in config (drop place input.now)) }
{
    if config.form {
        escaped_bracket(&input[place..])
    } else {
        None
    }
}

// The symbol, and the cursor moved on to a place. The segment now ends at the place before; its start stays.
fn advance(symbol: Symbol, cursor: Cursor, place: usize) -> Taken
    ensures { result ≡ advanced symbol cursor place }
{
    let moved = Cursor {
        place,
        start: cursor.start,
        end: cursor.place,
    };
    Taken {
        symbol,
        cursor: moved,
    }
}

// A taking by value: a byte, or `%5B` or `%5D` as one bracket where the flag is on. The segment's start stays.
fn step(input: &[u8], config: Config, cursor: Cursor) -> Taken
    requires { cursor.place ≤ length input.now }
    ensures { Next config input.now cursor result }
{
    let place = cursor.place;
    if input.len() <= place {
        return advance(Symbol::End, cursor, place + 1);
    }
    match escape_at(input, config, place) {
        Some(bracket) => advance(bracket, cursor, place + 3),
        None => advance(symbol_of(input[place]), cursor, place + 1),
    }
}

// A taking that advances the cursor that its caller lends: `step`'s cursor is stored in its place.
pub fn next(cursor: &mut Cursor, input: &[u8], config: Config) -> Symbol
    requires { cursor.old.place ≤ length input.now }
    ensures { Next config input.now cursor.old
        (record { symbol = result; cursor = cursor.new }) }
{
    let taken = step(input, config, *cursor);
    *cursor = taken.cursor;
    taken.symbol
}

// A taking by value, for the loops that hold their own cursor: it lends a copy of it to `next`, and answers the
// symbol and the cursor as it comes back. It stands above `next`, which is the source's form, with a lent cursor; the
// taking itself is `step`, which both share.
pub fn take(input: &[u8], config: Config, cursor: Cursor) -> Taken
    requires { cursor.place ≤ length input.now }
    ensures { Next config input.now cursor result }
{
    let mut moved = cursor;
    let symbol = next(&mut moved, input, config);
    Taken {
        symbol,
        cursor: moved,
    }
}

// A cursor at a place, with an empty segment there (the source's `clear_acc`).
pub fn cursor_at(place: usize) -> Cursor
    ensures { (result.place ≡ place) × (result.start ≡ place) × (result.end ≡ place) }
{
    Cursor {
        place,
        start: place,
        end: place,
    }
}
