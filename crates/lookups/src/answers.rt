// The answers of all names, three words each.
ghost use Rattle.std.specs.Prelude.{◌≡◌, true, ◌+◌, ◌*◌, ◌<◌, ◌≤◌, length};
ghost use Rattle.row.specs.Words.{record_count};
ghost use Rattle.fields.specs.OnRecords.{Readable, field_at, field_text_at};
ghost use Rattle.lookups.specs.Names.{ends_fit, names_in};
ghost use Rattle.lookups.specs.Answers.{answer_width, answers_of, over, with_answer};

use fields::text::Text;
use fields::{DuplicateKeyBehavior, text};
use refusals::Refusal;

// The words of an answer.
pub const WIDTH: usize = 3;

// What a text read answers, as C gets it: the number, 0 where there is a text, and the text's offset and length.
#[derive(Clone, Copy)]
pub struct Answer {
    pub number: u32,
    pub offset: u32,
    pub len: u32,
}

// The answer of a text read. Under a refusal, offset and length are 0.
impl From<Result<Text, Refusal>> for Answer {
    ghost use Rattle.lookups.specs.Answers.{answer_of};

    ghost from_gives = { λ read answer. answer ≡ answer_of read };

    fn from(read: Result<Text, Refusal>) -> Answer {
        match read {
            Ok(Text { offset, len }) => Answer {
                number: 0,
                offset,
                len,
            },
            Err(refusal) => Answer {
                number: refusal.into(),
                offset: 0,
                len: 0,
            },
        }
    }
}

// Writes an answer from this word on. Nothing else changes.
// Stays three words an answer: so C lends them; the end of the name before goes along, so no `zip` alone gives a turn.
fn write_answer(answers: &mut [u32], at: usize, answer: Answer)
    requires { at + answer_width ≤ length answers.old }
    ensures { answers.new ≡ with_answer answers.old at answer }
{
    answers[at] = answer.number;
    answers[at + 1] = answer.offset;
    answers[at + 2] = answer.len;
}

// Answers each name in turn. What stands past the last answer stays.
pub fn answer_names(
    words: &[u32],
    text: &[u8],
    names: &[u8],
    ends: &[u32],
    duplicates: DuplicateKeyBehavior,
    answers: &mut [u32],
)
    requires readable { Readable words.now text.now }
    requires inside { 0 < record_count words.now }
    requires ends { ends_fit 0 (length names.now) ends.now ≡ true }
    requires room { length ends.now * answer_width ≤ length answers.old }
    ensures { answers.new ≡ over
        (answers_of (λ name. field_text_at duplicates words.now text.now
        (field_at words.now text.now name)) (names_in names.now ends.now))
        answers.old }
{
    let mut start = 0;
    for (i, end) in ends.iter().enumerate() {
        let end = *end as usize;
        let read = text::field_text(words, text, &names[start..end], duplicates);
        write_answer(answers, i * WIDTH, read.into());
        start = end;
    }
}
