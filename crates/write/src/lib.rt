// The writer's call: reads an input and writes one that reads back as its tree (READING, 'The writer'). What is
// promised stands in specs/Writing.
// Below it stand the reader (parse), the writer of a tree (writer), which trees readings make (round_trip) and the
// definitions of a reading (reading).
#![tactic(auto)]

ghost use Rattle.std.specs.Prelude.{◌&&◌, ◌≡◌, leb};
ghost use Rattle.config.specs.Limits.{max_len};
ghost use Rattle.write.specs.Writing.{answered, writing};

use config::Config;
use reading::Reading;
use refusals::Refusal;

// What is answered: the reading's four numbers, or the writer's own refusal with the counts that the reading left, and
// the length of what is written, 0 on refusal. C gets it as it stands.
#[repr(C)]
#[derive(Clone, Copy)]
pub struct Written {
    pub number: u32,
    pub place: u32,
    pub records: u32,
    pub bytes: u32,
    pub length: u32,
}

// A reading's answer, with the length of what is written.
fn answered(reading: Reading, length: u32) -> Written
    ensures { result ≡ answered reading length }
{
    Written {
        number: reading.number,
        place: reading.place,
        records: reading.records,
        bytes: reading.bytes,
        length,
    }
}

// Whether so many bytes are no more than the output holds and the length limit allows.
fn fits(len: usize, size: usize) -> bool
    ensures { result ≡ (leb len size && leb len max_len) }
{
    len <= size && len <= Config::MAX_LEN
}

// Reads the input into the lent words and text, and writes an input that reads back as its tree into the lent output.
// Words and text are as the reading leaves them. The output is unchanged past what is written, and where the reading or
// the output is refused.
pub fn write(
    input: &[u8],
    config: Config,
    words: &mut [u32],
    text: &mut [u8],
    out: &mut [u8],
) -> Written
    ensures { record {
      answer = result;
      words = words.new;
      text = text.new;
      out = out.new;
    }
        ≡ writing config input.now words.old text.old out.old }
{
    let reading = match parse::parse(input, config, words, text) {
        Ok(used) => Reading::from(used),
        Err(refused) => return answered(refused.into(), 0),
    };
    let len = writer::measure(config, words, text);
    if !fits(len, out.len()) {
        return answered(reading.refused_by(Refusal::ShortOutput), 0);
    }
    writer::write_tree(config, words, text, out);
    answered(reading, len as u32)
}
