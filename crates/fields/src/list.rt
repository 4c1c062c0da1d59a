// The list of a record: offset and length of each element, written to a lent slice.
ghost use Rattle.std.specs.Prelude.{◌≡◌, ◌+◌, ◌*◌, ◌≤◌, ◌<◌, length, set, replicate, eqb};
ghost use Rattle.row.specs.Words.{record_count, word};
ghost use Rattle.row.specs.Row.{key_kind_word, int_key_kind};
ghost use Rattle.records.specs.Siblings.{children};
ghost use Rattle.fields.specs.OnRecords.{Readable, int_keys_at, is_next_at, element_at, in_turn_at, elements_at};
ghost use Rattle.fields.specs.OnRecords.{one_at, list_at, field_at, field_list_at, Writes};

use crate::DuplicateKeyBehavior;
use crate::stored::Stored;
use crate::text::Text;
use clearing::clear;
use refusals::Refusal;
use row::{KeyKind, Kind, Lent};

// Writes the offset and length of element i. Nothing else changes.
// Stays two words an element: so C lends the list.
fn write_element(list: &mut [u32], i: usize, element: Text)
    requires { 2 * i + 1 < length list.old }
    ensures { list.new ≡ set (set list.old (2 * i) element.offset) (2 * i + 1) element.len }
{
    list[2 * i] = element.offset;
    list[2 * i + 1] = element.len;
}

impl Stored<'_> {
    // Whether record n has an Int key.
    fn has_int_key(&self, n: u32) -> bool
        ensures { result ≡ eqb (word self.now.lent.words.now n key_kind_word) int_key_kind }
    {
        matches!(self.key_kind(n), Ok(KeyKind::Int))
    }

    // Whether every child of a record has an Int key.
    fn has_int_keys(&self, n: u32) -> bool
        requires { n < record_count self.now.lent.words.now }
        ensures { result ≡ int_keys_at self.now.lent.words.now (children self.now.lent.words.now n) }
    {
        self.children(n).all(|child| self.has_int_key(child))
    }

    // Whether record n is the element of index i: a Map's by its key, a Sequence's in any case.
    #[tactic(auto, unfolding(crate::specs::OnRecords::is_next_at))]
    fn is_next(&self, i: usize, n: u32) -> bool
        ensures { result ≡ is_next_at self.now.lent.words.now i n }
    {
        match self.key_kind(n) {
            Ok(KeyKind::None) => true,
            Ok(KeyKind::Int) => self.lent.word(n, row::KEY) as usize == i,
            _ => false,
        }
    }

    // The text of record n as the element of index i.
    #[tactic(auto, unfolding(crate::specs::OnRecords::element_at))]
    fn read_element(
        &self,
        i: usize,
        n: u32,
        duplicates: DuplicateKeyBehavior,
    ) -> Result<Text, Refusal>
        requires { n < record_count self.now.lent.words.now }
        ensures { result ≡ element_at duplicates self.now.lent.words.now self.now.lent.text.now i n }
    {
        if !self.is_next(i, n) {
            return Err(Refusal::MissingIndex);
        }
        self.read_text(n, duplicates)
    }

    // Reads the children of a record in turn into a cleared slice that has room for them. It stops at the first
    // refusal.
    // Stays with a count: it is answered at the end too, which `enumerate` doesn't hand out.
    fn read_in_turn(
        &self,
        n: u32,
        duplicates: DuplicateKeyBehavior,
        list: &mut [u32],
    ) -> Result<usize, Refusal>
        requires inside { n < record_count self.now.lent.words.now }
        requires clear { list.old ≡ replicate (length list.old) 0 }
        requires room { 2 * length (children self.now.lent.words.now n) ≤ length list.old }
        ensures { Writes (length list.old) list.new
            (in_turn_at duplicates self.now.lent.words.now self.now.lent.text.now 0
            (children self.now.lent.words.now n)) result }
    {
        let mut count: usize = 0;
        for child in self.children(n) {
            let element = self.read_element(count, child, duplicates)?;
            write_element(list, count, element);
            count += 1;
        }
        Ok(count)
    }

    // Reads the children of a record into a cleared slice, which must have room for them.
    fn read_children(
        &self,
        n: u32,
        duplicates: DuplicateKeyBehavior,
        list: &mut [u32],
    ) -> Result<usize, Refusal>
        requires inside { n < record_count self.now.lent.words.now }
        requires clear { list.old ≡ replicate (length list.old) 0 }
        ensures { Writes (length list.old) list.new
            (elements_at duplicates self.now.lent.words.now self.now.lent.text.now (length list.old) n) result }
    {
        let count = self.children(n).count();
        if list.len() < 2 * count {
            return Err(Refusal::ShortSlice);
        }
        self.read_in_turn(n, duplicates, list)
    }

    // Reads a String as the one element of a list into a cleared slice.
    // Stays a clause, that the list is clear: it holds until the first element is written, so no type says it.
    fn read_one(&self, n: u32, list: &mut [u32]) -> Result<usize, Refusal>
        requires { list.old ≡ replicate (length list.old) 0 }
        ensures { Writes (length list.old) list.new
            (one_at self.now.lent.words.now self.now.lent.text.now (length list.old) n) result }
    {
        if list.len() < 2 {
            return Err(Refusal::ShortSlice);
        }
        let element = self.single_text(n)?;
        write_element(list, 0, element);
        Ok(1)
    }

    // The list of a record, read into a cleared slice.
    #[tactic(auto, unfolding(crate::specs::OnRecords::list_at))]
    fn read_list(
        &self,
        n: u32,
        duplicates: DuplicateKeyBehavior,
        list: &mut [u32],
    ) -> Result<usize, Refusal>
        requires inside { n < record_count self.now.lent.words.now }
        requires clear { list.old ≡ replicate (length list.old) 0 }
        ensures { Writes (length list.old) list.new
            (list_at duplicates self.now.lent.words.now self.now.lent.text.now (length list.old) n) result }
    {
        match self.lent.kind(n) {
            Ok(Kind::String) => self.read_one(n, list),
            Ok(Kind::Sequence) => self.read_children(n, duplicates, list),
            Ok(Kind::Map) if self.has_int_keys(n) => self.read_children(n, duplicates, list),
            Ok(Kind::Map | Kind::Uninitialized) => Err(Refusal::WrongKind),
            _ => Ok(0),
        }
    }
}

// The list of the field of a name. What the slice held is overwritten.
pub fn field_list(
    words: &[u32],
    text: &[u8],
    name: &[u8],
    duplicates: DuplicateKeyBehavior,
    list: &mut [u32],
) -> Result<usize, Refusal>
    requires readable { Readable words.now text.now }
    requires inside { 0 < record_count words.now }
    ensures { Writes (length list.old) list.new
        (field_list_at duplicates words.now text.now (length list.old)
        (field_at words.now text.now name.now)) result }
{
    clear(list);
    let tree = Stored {
        lent: Lent { words, text },
    };
    let n = tree.root_field(name)?;
    tree.read_list(n, duplicates, list)
}
