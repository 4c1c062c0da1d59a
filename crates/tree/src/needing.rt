// A map or a sequence needed at a record.
ghost use Rattle.std.specs.Prelude.{◌≡◌, List, ℕ, ◌<◌};
ghost use Rattle.row.specs.Row.{kind_word, map_kind, sequence_kind};
ghost use Rattle.row.specs.Words.{record_count, word};
ghost use Rattle.tree.specs.Needing.{map_answer, sequence_answer, becomes};
ghost use Rattle.tree.specs.Commands.{Performs, needs_map, needs_sequence, stays};

use crate::Here;
use records::store;
use records::store::ValueWords;
use refusals::Refusal;
use row::Kind;

// Needs a map at the record: a Map stays, Uninitialized is made one, any other kind is refused. Nothing else changes.
pub fn expect_map(words: &mut [u32], here: Here) -> Result<Here, Refusal>
    requires { here.node < record_count words.old }
    ensures words { (result ≡ map_answer here (word words.old here.node kind_word))
        × (words.new ≡ becomes words.old here.node map_kind) }
    ensures performs { (text : List ℕ) → Performs words.old text words.new text here
        needs_map stays result }
{
    match Kind::try_from(row::get_word(words, here.node, row::KIND)) {
        Ok(Kind::Uninitialized) => {
            let map = ValueWords {
                kind: Kind::Map.into(),
                offset: 0,
                len: 0,
            };
            store::set_value(words, here.node, map);
            Ok(here)
        }
        Ok(Kind::Map) => Ok(here),
        Ok(Kind::Sequence) => Err(Refusal::MapOnSequence),
        Ok(Kind::String) => Err(Refusal::MapOnString),
        Ok(Kind::Null | Kind::NoValue) | Err(_) => Err(Refusal::MapOnNull),
    }
}

// Needs a sequence at the record, for `[]`: a Sequence stays, Uninitialized is made one, any other kind is refused.
// Nothing else changes.
// Stays beside `expect_map`: they refuse other kinds by other refusals, so one function would take a table of them.
pub fn expect_sequence(words: &mut [u32], here: Here) -> Result<Here, Refusal>
    requires { here.node < record_count words.old }
    ensures words { (result ≡ sequence_answer here (word words.old here.node kind_word))
        × (words.new ≡ becomes words.old here.node sequence_kind) }
    ensures performs { (text : List ℕ) → Performs words.old text words.new text here
        needs_sequence stays result }
{
    match Kind::try_from(row::get_word(words, here.node, row::KIND)) {
        Ok(Kind::Uninitialized) => {
            let sequence = ValueWords {
                kind: Kind::Sequence.into(),
                offset: 0,
                len: 0,
            };
            store::set_value(words, here.node, sequence);
            Ok(here)
        }
        Ok(Kind::Sequence) => Ok(here),
        Ok(Kind::Map) => Err(Refusal::SequenceOnMap),
        Ok(Kind::String | Kind::Null | Kind::NoValue) | Err(_) => Err(Refusal::SequenceOnSingle),
    }
}
