// Scans: takings up to a symbol that ends them. The source has a loop for each; here it is one.
ghost use Rattle.std.specs.Prelude.{◌≡◌, ◌≤◌, length};
ghost use Rattle.cursor.specs.Takings.{yielded};
ghost use Rattle.cursor.specs.Scans.{stops_of, stops_at, stops, Scanned};

use crate::taking::{Cursor, Symbol, Taken, take};
use config::Config;

// What is scanned: a value, a bracket's key below the depth, which a `]` ends, a key at the depth, or a root key,
// which a `[` ends too where brackets nest. (A value's end is found by `value_end`, of which the same is proved.)
// Stays an enum: definitions and theorems of scans (specs/Scans) take it, and a closure could not stand in them.
#[derive(Clone, Copy)]
pub enum Until {
    Value,
    Closing,
    KeyAtDepth,
    RootKey(bool),
}

// The symbols that end a scan. The end of the input ends every one.
// Stays four flags: they are made once a scan and read at each taking; a match on `Until` there would test two enums.
#[derive(Clone, Copy)]
struct Stops {
    ampersand: bool,
    equals: bool,
    opening: bool,
    closing: bool,
}

// The symbols that end a scan of this kind.
fn stops_of(until: Until) -> Stops
    ensures { result ≡ stops_of until }
{
    match until {
        Until::Value => Stops {
            ampersand: true,
            equals: false,
            opening: false,
            closing: false,
        },
        Until::Closing => Stops {
            ampersand: false,
            equals: false,
            opening: false,
            closing: true,
        },
        Until::KeyAtDepth => Stops {
            ampersand: true,
            equals: true,
            opening: false,
            closing: false,
        },
        Until::RootKey(nests) => Stops {
            ampersand: true,
            equals: true,
            opening: nests,
            closing: false,
        },
    }
}

// Whether a symbol ends the scan.
fn stops_at(stops: Stops, symbol: Symbol) -> bool
    ensures { result ≡ stops_at stops (yielded symbol) }
{
    match symbol {
        Symbol::Ampersand => stops.ampersand,
        Symbol::Equals => stops.equals,
        Symbol::Opening => stops.opening,
        Symbol::Closing => stops.closing,
        Symbol::Other => false,
        Symbol::End => true,
    }
}

// Whether a symbol ends a scan of this kind.
pub fn ends_scan(until: Until, symbol: Symbol) -> bool
    ensures { result ≡ stops until (yielded symbol) }
{
    stops_at(stops_of(until), symbol)
}

// Takes until a symbol that ends the scan, which is taken too. The segment's start stays. Kept by hand: an iterator
// of takings would hold input, settings and cursor, and hand its cursor back at the end, which is no plainer.
pub fn take_until(input: &[u8], config: Config, until: Until, cursor: Cursor) -> Taken
    requires { cursor.place ≤ length input.now }
    ensures { Scanned until config input.now cursor result }
{
    let stops = stops_of(until);
    let mut scan = cursor;
    loop {
        let taken = take(input, config, scan);
        let symbol = taken.symbol;
        if stops_at(stops, symbol) {
            return taken;
        }
        scan = taken.cursor;
    }
}
