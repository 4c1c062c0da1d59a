// The commands of a reading on the tree that the lent records and text hold: a map needed, a sequence needed, a key
// entered, a value added.
// What each leaves and answers is what `perform` of the definitions makes of that tree (specs/Commands).
// Below it stand the store of records (records), the aids to finding a child (aids), a record's row (row), the
// refusals (refusals), the keys (key), their tags (tags), decoding (decode), the definitions (reading) and laws.
#![tactic(auto)]

ghost use Rattle.std.specs.Prelude.{◌≡◌};

pub mod adding; // a value added
pub mod entering; // a key entered
mod laying; // text laid behind what is used
pub mod needing; // a map or a sequence needed

use aids::Among;

// Where the tree stands: how many records and bytes of text it uses, the record that a command is for, and how many
// records stand below the aids.
// Stays with lengths beside the lent slices: memory is fixed, and how much of it is used is what a reading answers.
#[derive(Clone, Copy)]
pub struct Here {
    pub records: u32,
    pub bytes: u32,
    pub node: u32,
    pub aids: u32,
}

impl Here {
    ghost use Rattle.tree.specs.Stored.{among_of};

    // The record that a command is for, as the parent of a new child.
    fn among(self) -> Among
        ensures { result ≡ among_of self }
    {
        Among {
            parent: self.node,
            used: self.records,
            aids: self.aids,
        }
    }
}
