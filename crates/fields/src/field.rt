// The field of a name in the root.
ghost use Rattle.std.specs.Prelude.{◌≡◌};
ghost use Rattle.records.specs.Siblings.{children};
ghost use Rattle.fields.specs.OnRecords.{is_named_at, named_at, field_at};

use crate::stored::Stored;
use refusals::Refusal;
use row::{KeyKind, Kind};

impl Stored<'_> {
    // Whether the key of record n is the String name. The name is not decoded.
    #[tactic(auto, unfolding(crate::specs::OnRecords::is_named_at))]
    fn is_named(&self, n: u32, name: &[u8]) -> bool
        ensures { result ≡ is_named_at self.now.lent.words.now self.now.lent.text.now name.now n }
    {
        match self.key_kind(n) {
            Ok(KeyKind::String) => self.lent.key_part(n) == name,
            _ => false,
        }
    }

    // The child of the root that has the name.
    fn find_named(&self, name: &[u8]) -> Result<u32, Refusal>
        ensures { result ≡ named_at self.now.lent.words.now self.now.lent.text.now name.now
            (children self.now.lent.words.now 0) }
    {
        self.children(0)
            .find(|child| self.is_named(*child, name))
            .ok_or(Refusal::NoSuchField)
    }

    // The field of a name in the root, as the source's `deserialize_map` and `field_order` (in `MapDeserializer`) find
    // it. A String root is the field of the empty name itself.
    #[tactic(auto, unfolding(crate::specs::OnRecords::field_at))]
    pub(crate) fn root_field(&self, name: &[u8]) -> Result<u32, Refusal>
        ensures { result ≡ field_at self.now.lent.words.now self.now.lent.text.now name.now }
    {
        match self.lent.kind(0) {
            Ok(Kind::Map) => self.find_named(name),
            Ok(Kind::String) if name.is_empty() => Ok(0),
            Ok(Kind::Sequence | Kind::Uninitialized) => Err(Refusal::WrongRoot),
            _ => Err(Refusal::NoSuchField),
        }
    }
}
