// The reader: the source's `parse` and its `Parser` (src/de/parse.rs), of an input into lent records and text, equal
// to `reading` (specs/Outcomes). The demands that follow for one call and for two stand in specs/Demands.
// Below it stand the reading of the pairs (pairs), the records (records), the aids to finding a child (aids), a
// record's row (row), the refusals (refusals) and the definitions (reading).
#![tactic(auto)]

mod parser; // the parser that holds the input

ghost use Rattle.std.specs.Prelude.{◌≡◌, ◌*◌, ◌≤◌, ◌<◌, length};
ghost use Rattle.config.specs.Limits.{max_len};
ghost use Rattle.row.specs.Row.{record_width};
ghost use Rattle.row.specs.Words.{record_count};
ghost use Rattle.row.specs.Kinds.{kind_number};
ghost use Rattle.reading.specs.Values.{no_value};
ghost use Rattle.reading.specs.Charging.{root_only};
ghost use Rattle.reading.specs.Running.{accepted};
ghost use Rattle.reading.specs.Reading.{alone, lent_by, parsed, outcome, reading};
ghost use Rattle.records.specs.Records.{with_record};
ghost use Rattle.indexed.specs.Adding.{unkeyed, childless};
ghost use Rattle.tree.specs.Stored.{cleared_from};
ghost use Rattle.parse.specs.Outcomes.{outcome_of};
ghost use Rattle.parse.specs.Begun.{Begun};

use clearing::clear;
use config::Config;
use indexed::growing;
use pairs::parse_pairs;
pub use parser::{Parser, parse_at};
use reading::{Refused, Used};
use records::store;
use records::store::{KeyWords, Record, ValueWords};
use refusals::Refusal;
use row::{KeyKind, Kind};
use tree::Here;

// Writes record 0 whole, as a root of a kind, with no text and no child. Nothing else changes.
// Stays a clause, that there is room for a root: it speaks of the lent words, which no value here holds.
fn write_root(words: &mut [u32], kind: Kind)
    requires { record_width ≤ length words.old }
    ensures { words.new ≡ with_record words.old 0 (unkeyed (childless (kind_number kind))) 0 }
{
    let root = Record {
        key: KeyWords {
            kind: KeyKind::None.into(),
            offset: 0,
            len: 0,
        },
        value: ValueWords {
            kind: kind.into(),
            offset: 0,
            len: 0,
        },
    };
    store::write_record(words, 0, root, 0);
}

// Writes an Uninitialized root and makes the aids ready, which stand below so many records.
fn begin(words: &mut [u32]) -> u32
    requires { record_width ≤ length words.old }
    ensures { Begun words.old words.new result }
{
    write_root(words, Kind::Uninitialized);
    growing::start(words)
}

// Clears what isn't used of the words and of the text.
fn clear_unused(words: &mut [u32], text: &mut [u8], used: Used)
    requires { (used.records ≤ record_count words.old) × (used.bytes ≤ length text.old) }
    ensures { (words.new ≡ cleared_from (used.records * record_width) words.old)
        × (text.new ≡ cleared_from used.bytes text.old) }
{
    clear(&mut words[used.records as usize * row::WIDTH..]);
    clear(&mut text[used.bytes as usize..]);
}

// Reads an input that isn't empty, from an Uninitialized root on. What isn't used is cleared at the end, which after a
// refusal is all.
fn parse_some(
    input: &[u8],
    config: Config,
    words: &mut [u32],
    text: &mut [u8],
) -> Result<Used, Refused>
    requires { (0 < length input.now) × (length input.now ≤ max_len) × (record_width ≤ length words.old) }
    ensures { outcome_of result words.new text.new
        ≡ outcome (length words.old) (length text.old)
        (parsed config input.now (lent_by words.old text.old)) }
{
    let aids = begin(words);
    let root = Here {
        records: 1,
        bytes: 0,
        node: 0,
        aids,
    };
    match parse_pairs(input, config, words, text, root, 0) {
        Ok(here) => {
            let used = Used {
                records: here.records,
                bytes: here.bytes,
            };
            clear_unused(words, text, used);
            Ok(used)
        }
        Err(refused) => {
            clear(words);
            clear(text);
            Err(refused)
        }
    }
}

// Reads an empty input: a NoValue root. The rest is cleared.
fn parse_empty(words: &mut [u32], text: &mut [u8]) -> Used
    requires { record_width ≤ length words.old }
    ensures { outcome_of (Ok result) words.new text.new
        ≡ outcome (length words.old) (length text.old) (accepted (alone no_value) root_only) }
{
    write_root(words, Kind::NoValue);
    let used = Used {
        records: 1,
        bytes: 0,
    };
    clear_unused(words, text, used);
    used
}

// Reads the input into slices that have room for a root.
fn parse_lent(
    input: &[u8],
    config: Config,
    words: &mut [u32],
    text: &mut [u8],
) -> Result<Used, Refused>
    requires { (length input.now ≤ max_len) × (record_width ≤ length words.old) }
    ensures { outcome_of result words.new text.new
        ≡ outcome (length words.old) (length text.old)
        (parsed config input.now (lent_by words.old text.old)) }
{
    if input.is_empty() {
        Ok(parse_empty(words, text))
    } else {
        parse_some(input, config, words, text)
    }
}

// Reads the input unless refusals 1 to 3 stand against it, which leave words and text unchanged.
// Stay apart, the lent slices: C lends them so, and a struct made here would be taken apart in `pairs`.
fn parse_input(
    input: &[u8],
    config: Config,
    words: &mut [u32],
    text: &mut [u8],
) -> Result<Used, Refused>
    ensures { outcome_of result words.new text.new
        ≡ reading config input.now words.old text.old }
{
    if config.is_too_deep() {
        return Err(Refused {
            refusal: Refusal::TooDeep,
            place: 0,
        });
    }
    if Config::is_too_long(input.len()) {
        return Err(Refused {
            refusal: Refusal::TooLong,
            place: 0,
        });
    }
    if !row::has_room(words, 1) {
        return Err(Refused {
            refusal: Refusal::NoRecord,
            place: 0,
        });
    }
    parse_lent(input, config, words, text)
}

// Reads the input into the lent words and text. Refusals 1 to 3 leave both unchanged, the later ones leave both zero;
// an accepted reading leaves zeros behind what it uses.
pub fn parse(
    input: &[u8],
    config: Config,
    words: &mut [u32],
    text: &mut [u8],
) -> Result<Used, Refused>
    ensures { outcome_of result words.new text.new
        ≡ reading config input.now words.old text.old }
{
    Parser::new(input).parse(config, words, text)
}
