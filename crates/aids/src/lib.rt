// Aids to finding a child among many, in words that are free: for each record the child that was touched last (slots),
// and for maps of many children the first bytes of some keys, each with its child (fingers). They propose a child and
// claim nothing: whatever the words hold, every call ends and changes no word below the free ones (specs/Kept). Who
// asks tests what is proposed.
// Below it stand a record's row (row), tags (tags) and laws.
#![tactic(auto)]

mod blocks; // the fingers of a block
pub mod fingers; // a child proposed by the fingers, and fingers put in
mod free; // free words, read and written
mod halving; // a search by halving
mod keys; // keys of children compared
mod layout; // where the aids stand
mod order; // the order of the blocks
pub mod slots; // the child that was touched last

// The number that stands for no aids. Kept a number: `Among` goes by value through each call of the hot path, where an
// Option is a word more, and as the greatest it needs no case of its own in `used ≤ aids`.
pub const NO_AIDS: u32 = 4294967295;

// The tag and the name of a key stay apart beside it: half of the functions that take a tag take no name.
// The record among whose children a key is looked for, how many records are used, and how many stand below the aids.
#[derive(Clone, Copy)]
pub struct Among {
    pub parent: u32,
    pub used: u32,
    pub aids: u32,
}
