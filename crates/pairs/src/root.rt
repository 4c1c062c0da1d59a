// The root: the pairs of the input, one after the other.
ghost use Rattle.std.specs.Prelude.{◌≡◌, ◌&&◌, [], ◌+◌, ◌≤◌, eqb, length};
ghost use Rattle.reading.specs.Scanning.{root_key};
ghost use Rattle.reading.specs.Running.{Answer};
ghost use Rattle.cursor.specs.declared.scanning.Until.TheVariants.{Value};
ghost use Rattle.cursor.specs.Takings.{yielded};
ghost use Rattle.cursor.specs.Scans.{stops};
ghost use Rattle.pairs.specs.Progress.{still, Start, max_cover, moment, Reads, SomeReads};
ghost use Rattle.pairs.specs.Turns.{RootScanned, ReadsPair, PairsEnd};

use crate::nested::parse_nested_key;
use crate::turning::{Between, ScannedKey, Stopped};
use config::Config;
use cursor::{Until, ends_scan, take_key};
use reading::Refused;
use tree::Here;

// The root key that starts at an index, and the taking that ends it.
fn root_key(input: &[u8], config: Config, from: Between) -> ScannedKey
    requires { from.index ≤ length input.now }
    ensures { RootScanned config input.now from.here from.index result }
{
    let found = take_key(input, config, Until::RootKey(config.depth != 0), from.index);
    ScannedKey {
        here: Here {
            node: 0,
            ..from.here
        },
        level: 0,
        key: found.key,
        segment: found.taken.cursor,
        taken: found.taken,
    }
}

// Whether nothing is scanned: no key, and `&` or the end behind it.
fn is_nothing(scanned: ScannedKey) -> bool
    ensures { result ≡ eqb scanned.segment.start scanned.segment.end
        && stops Value (yielded scanned.taken.symbol) }
{
    let segment = scanned.segment;
    segment.start == segment.end && ends_scan(Until::Value, scanned.taken.symbol)
}

// One pair, up to where the next one starts.
// Stay apart, the lent slices: a struct of both would be lent anew at each call, and no clause would be shorter.
fn parse_pair(
    input: &[u8],
    config: Config,
    words: &mut [u32],
    text: &mut [u8],
    from: Between,
) -> Result<Between, Stopped>
    requires { SomeReads config input.now (moment words.old text.old from.here from.index) (still (λ path. root_key []))
        × (from.index ≤ length input.now) }
    ensures { ReadsPair config input.now (moment words.old text.old from.here from.index)
        words.new text.new (still (λ path. root_key [])) (from.index + 1) result }
{
    let first = root_key(input, config, from);
    if is_nothing(first) {
        return Ok(Between {
            index: first.taken.cursor.place,
            here: first.here,
        });
    }
    parse_nested_key(input, config, words, text, first)
}

// The pairs of the input, into the tree that stands there: its first byte has a place, from which the answer's counts.
// Stays a `while`: how far a pair reaches is known once it is read, so no range and no iterator gives the next index.
pub fn parse_pairs(
    input: &[u8],
    config: Config,
    words: &mut [u32],
    text: &mut [u8],
    here: Here,
    place: usize,
) -> Result<Here, Refused>
    requires { SomeReads config input.now (moment words.old text.old here 0) (still (λ path. root_key []))
        × (place + length input.now ≤ max_cover) }
    ensures { (start : Start) (answer : Answer) → start.place ≡ place
        → Reads config input.now start (moment words.old text.old here 0)
        (still (λ path. root_key [])) answer
        → PairsEnd answer words.new text.new result }
{
    let mut next = Between { index: 0, here };
    while next.index < input.len() {
        next = parse_pair(input, config, words, text, next).map_err(|stopped| stopped.at(place))?;
    }
    Ok(next.here)
}
