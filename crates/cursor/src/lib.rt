// Scanning the input: the source's `next`, `collect_key` and `collect_value` (src/de/parse.rs). `next` advances the
// cursor that its caller lends; its one caller, `take`, lends its own copy, so that from there on a cursor goes in and
// comes back by value.
// A value's end isn't taken but found (`value_end`); the digits that a root key begins with are summed as they are
// passed (`take_key`).
// What they answer is in specs/Takings, specs/Scans, specs/Ampersands and specs/Collected; specs/From ties it to the
// reading.
// Below it stand what an input means (reading), the key rule (key), decoding (decode), digits (ascii), the settings
// (config) and laws.
#![tactic(auto)]

mod collecting;
mod finding;
mod scanning;
mod taking;

pub use collecting::{CollectedKey, CollectedValue, collect_key, collect_value, take_key};
pub use finding::value_end;
pub use scanning::{Until, ends_scan, take_until};
pub use taking::{Cursor, Symbol, Taken, cursor_at, next, take};
