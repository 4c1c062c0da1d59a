// Field reads: a reading, then the field of a name in the root as a text or as a list; `deserialize_str` and
// `deserialize_seq` of the source's src/de.rs; and the fields of many names after one reading. What is promised stands
// in specs/Reads and specs/FieldsReads; of the texts that are answered in specs/Answered; and that one reading answers
// what many do, in specs/SingleReads.
// Below it stand the reader (parse), the fields of a tree (fields), the answers of many names (lookups), clearing and
// the definitions (reading).
#![tactic(auto)]

ghost use Rattle.std.specs.Prelude.{◌≡◌, ◌≤◌};
ghost use Rattle.de.specs.Reads.{refused_answer, text_answer, text_read, left_in, list_read};
ghost use Rattle.de.specs.ListReads.{element_count, list_read_answer, left_by};
ghost use Rattle.de.specs.FieldsReads.{fields_read};
ghost use Rattle.refusals.specs.Codes.{code};
ghost use Rattle.reading.specs.Reading.{refuses};

use clearing::clear;
use config::Config;
use fields::text::Text;
use fields::{DuplicateKeyBehavior, list, text};
use lookups::{answers, names};
use reading::{Reading, Refused};
use refusals::Refusal;

// What a field read answers: the reading's numbers, with the field's own number where it has one, and the text's
// offset and length (of a list, 0 and the number of elements). C gets it as it stands.
#[repr(C)]
#[derive(Clone, Copy)]
pub struct FieldRead {
    pub reading: Reading,
    pub offset: u32,
    pub len: u32,
}

// The result that has no text: of a reading that is refused.
fn unread(reading: Reading) -> FieldRead
    ensures { result ≡ record { reading = reading; offset = 0; len = 0 } }
{
    FieldRead {
        reading,
        offset: 0,
        len: 0,
    }
}

// The result where the field is refused after an accepted reading, whose counts stay.
fn refused(reading: Reading, refusal: Refusal) -> FieldRead
    ensures { result ≡ refused_answer reading refusal }
{
    unread(reading.refused_by(refusal))
}

// The result of a text read after an accepted reading.
fn text_answer(reading: Reading, read: Result<Text, Refusal>) -> FieldRead
    ensures { result ≡ text_answer reading read }
{
    match read {
        Ok(text) => FieldRead {
            reading,
            offset: text.offset,
            len: text.len,
        },
        Err(refusal) => refused(reading, refusal),
    }
}

// The result of a list read after an accepted reading. Each element is one of its records, so their number fits.
// Stays beside `text_answer`: of a list it is a count that is answered, which must be shown to fit.
fn list_answer(reading: Reading, read: Result<usize, Refusal>) -> FieldRead
    requires { element_count read ≤ reading.records }
    ensures { result ≡ list_read_answer reading read }
{
    match read {
        Ok(count) => FieldRead {
            reading,
            offset: 0,
            len: count as u32,
        },
        Err(refusal) => refused(reading, refusal),
    }
}

// What a reading's refusal leaves in a list: 1 to 3 what it held, the later ones zeros.
fn clear_after(refusal: Refusal, list: &mut [u32])
    ensures { list.new ≡ left_in (code refusal) list.old }
{
    match refusal {
        Refusal::TooDeep | Refusal::TooLong | Refusal::NoRecord => {}
        _ => clear(list),
    }
}

// What a list read leaves in the list: the elements, or zeros where it is refused.
fn clear_refused(read: Result<usize, Refusal>, list: &mut [u32])
    ensures { list.new ≡ left_by read list.old }
{
    if read.is_err() {
        clear(list);
    }
}

// Reads the input into the lent words and text, and the field of a name in its root as a text. Words and text are as
// the reading leaves them.
pub fn deserialize_str(
    input: &[u8],
    name: &[u8],
    config: Config,
    duplicates: DuplicateKeyBehavior,
    words: &mut [u32],
    text: &mut [u8],
) -> FieldRead
    ensures { record { answer = result; words = words.new; text = text.new }
        ≡ text_read config duplicates input.now name.now words.old
        text.old }
{
    match parse::parse(input, config, words, text) {
        Ok(used) => {
            let read = text::field_text(words, text, name, duplicates);
            text_answer(used.into(), read)
        }
        Err(refused) => unread(refused.into()),
    }
}

// Reads the input into the lent words and text, and the field of a name in its root as a list, whose elements'
// offsets and lengths are written to the lent list, with zeros behind them. Words and text are as the reading leaves
// them.
pub fn deserialize_seq(
    input: &[u8],
    name: &[u8],
    config: Config,
    duplicates: DuplicateKeyBehavior,
    words: &mut [u32],
    text: &mut [u8],
    list: &mut [u32],
) -> FieldRead
    ensures { record {
      read = record { answer = result; words = words.new; text = text.new };
      list = list.new;
    }
        ≡ list_read config duplicates input.now name.now words.old text.old
        list.old }
{
    match parse::parse(input, config, words, text) {
        Ok(used) => {
            let read = list::field_list(words, text, name, duplicates, list);
            clear_refused(read, list);
            list_answer(used.into(), read)
        }
        Err(refused) => {
            clear_after(refused.refusal, list);
            unread(refused.into())
        }
    }
}

// The answer where the list of names or the answer words are refused, before anything is read.
fn unasked(refusal: Refusal) -> Reading
    ensures { result ≡ refuses refusal 0 }
{
    Refused { refusal, place: 0 }.into()
}

// Reads the input into the lent words and text, once, and the field of each name in its root as a text, whose number,
// offset and length are written to the lent words for answers. Of a list of no names it reads the input alone. Words
// and text are as the reading leaves them. What stands past the last answer stays, and all answer words do where the
// reading or what is asked is refused.
// Stays with eight parameters: it is the call of C's `qs_fields`, whose parts stand one by one.
pub fn deserialize_fields(
    input: &[u8],
    names: &[u8],
    ends: &[u32],
    config: Config,
    duplicates: DuplicateKeyBehavior,
    words: &mut [u32],
    text: &mut [u8],
    answers: &mut [u32],
) -> Reading
    ensures { record {
      reading = record { answer = result; words = words.new; text = text.new };
      answers = answers.new;
    }
        ≡ fields_read (record {
          config = config;
          duplicates = duplicates;
          input = input.now;
          names = names.now;
          ends = ends.now;
        }) words.old text.old answers.old }
{
    if !names::ends_fit(ends, names.len()) {
        return unasked(Refusal::WrongEnds);
    }
    if answers.len() / answers::WIDTH < ends.len() {
        return unasked(Refusal::ShortAnswers);
    }
    match parse::parse(input, config, words, text) {
        Ok(used) => {
            answers::answer_names(words, text, names, ends, duplicates, answers);
            used.into()
        }
        Err(refused) => refused.into(),
    }
}
