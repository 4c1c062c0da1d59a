// The fields of a tree: the field of a name in its root, read as a text or as a list. Definitions over trees stand in
// specs/Fields, Texts and Lists; what the code finds in the records (specs/OnRecords) is that of the tree which they
// hold (proofs/Agree).
// Below it stand the records and the tree that they hold (row, records, tree), the test for UTF-8 (utf8), clearing and
// the definitions (reading).
#![tactic(auto)]

pub mod field; // the field of a name
pub mod list; // the list of a record
mod stored; // a tree as it is stored
pub mod text; // the text of a record

// `DuplicateKeyBehavior` of the source: where a text is asked for and the field has several values, the last is taken
// or they are refused.
#[derive(Clone, Copy)]
pub enum DuplicateKeyBehavior {
    TakeLast,
    Error,
}
