// The functions exported to C and Rust, each a thin cover of a proved one; `rt lib` writes them to one archive, which
// library.sh puts at target/staticlib/libqs.a. A slice is passed as a pointer and the count of its elements. The
// definitions are those of the crates below, in C's numbers (specs/Numbers, specs/Arguments).
// Below it stand the reader (parse), field reads (de, fields), the sheet (print), the writer (write), decoding
// (decode), the test for UTF-8 (utf8), the settings (config) and the answer's struct (reading).
#![tactic(auto)]

ghost use Rattle.std.specs.Prelude.{◌≡◌};
ghost use Rattle.config.specs.Numbers.{of_numbers};
ghost use Rattle.decode.specs.Decoding.{answer, written};
ghost use Rattle.utf8.specs.Test.{utf8};
ghost use Rattle.reading.specs.Reading.{reading};
ghost use Rattle.de.specs.Reads.{text_read, list_read};
ghost use Rattle.de.specs.FieldsReads.{fields_read};
ghost use Rattle.print.specs.Printing.{printing};
ghost use Rattle.write.specs.Writing.{writing};
ghost use Rattle.qs.specs.Numbers.{length_or_no, one_or_zero, OneForUtf8};
ghost use Rattle.qs.specs.Arguments.{behavior};

use config::Config;
use de::FieldRead;
use fields::DuplicateKeyBehavior;
use reading::Reading;
use write::Written;

// Decodes `raw` into `out`: the decoded length, with the further bytes of `out` as they were; or -1 where the decoded
// bytes don't fit, with `out` unchanged.
#[unsafe(no_mangle)]
pub extern "C" fn qs_decode(raw: &[u8], out: &mut [u8]) -> i64
    ensures answer { result ≡ length_or_no (answer raw.now out.old) }
    ensures output { out.new ≡ written raw.now out.old }
{
    match decode::decode(raw, out) {
        Some(n) => n as i64,
        None => -1,
    }
}

// Whether the bytes are UTF-8: 1 or 0.
#[unsafe(no_mangle)]
pub extern "C" fn qs_utf8(bytes: &[u8]) -> i32
    ensures test { result ≡ one_or_zero (utf8 bytes.now) }
    ensures grammar { OneForUtf8 result bytes.now }
{
    utf8::is_utf8(bytes).into()
}

// What is made of several values where a text is asked for: 0 takes the last, anything else refuses them.
// Stays a function: what the number means is C's, and a `From` would lie in crate fields, far from the exports.
fn behavior(duplicates: u32) -> DuplicateKeyBehavior
    ensures { result ≡ behavior duplicates }
{
    if duplicates == 0 {
        DuplicateKeyBehavior::TakeLast
    } else {
        DuplicateKeyBehavior::Error
    }
}

// Reads `input` into lent `words`, eight a record, and `text`, at a depth and with the form flag and the key setting
// off (0) or on (anything else). Refusals 1 to 3 leave both slices unchanged, the later ones leave them zero.
#[unsafe(no_mangle)]
pub extern "C" fn qs_parse(
    depth: u32,
    form: u32,
    zeros: u32,
    input: &[u8],
    words: &mut [u32],
    text: &mut [u8],
) -> Reading
    ensures { record { answer = result; words = words.new; text = text.new }
        ≡ reading (of_numbers depth form zeros) input.now words.old text.old }
{
    parse::parse(input, Config::of_numbers(depth, form, zeros), words, text).into()
}

// Reads `input` as `qs_parse` does, and then the root's field of that name as a text: its offset and length in
// `text`. Of several values 0 takes the last, and anything else refuses them.
#[unsafe(no_mangle)]
pub extern "C" fn qs_text(
    depth: u32,
    form: u32,
    zeros: u32,
    duplicates: u32,
    input: &[u8],
    name: &[u8],
    words: &mut [u32],
    text: &mut [u8],
) -> FieldRead
    ensures { record { answer = result; words = words.new; text = text.new }
        ≡ text_read (of_numbers depth form zeros) (behavior duplicates) input.now name.now
        words.old text.old }
{
    let config = Config::of_numbers(depth, form, zeros);
    let duplicates = behavior(duplicates);
    de::deserialize_str(input, name, config, duplicates, words, text)
}

// The same, of the field as a list: each element's offset and length are written to `list`, with zeros behind them.
// Refusals 1 to 3 leave it unchanged, the later ones leave it zero.
#[unsafe(no_mangle)]
pub extern "C" fn qs_list(
    depth: u32,
    form: u32,
    zeros: u32,
    duplicates: u32,
    input: &[u8],
    name: &[u8],
    words: &mut [u32],
    text: &mut [u8],
    list: &mut [u32],
) -> FieldRead
    ensures { record {
      read = record { answer = result; words = words.new; text = text.new };
      list = list.new;
    }
        ≡ list_read (of_numbers depth form zeros) (behavior duplicates) input.now name.now
        words.old text.old list.old }
{
    let config = Config::of_numbers(depth, form, zeros);
    let duplicates = behavior(duplicates);
    de::deserialize_seq(input, name, config, duplicates, words, text, list)
}

// Reads `input` as `qs_parse` does, once, and then the root's field of each name as a text. The names lie end to end in
// `names`, and `ends` has the end of each. Each answer is three words of `answers`: number, offset and length; the rest
// of `answers` stays as it was, and all of it does where the call's own number isn't 0.
#[unsafe(no_mangle)]
pub extern "C" fn qs_fields(
    depth: u32,
    form: u32,
    zeros: u32,
    duplicates: u32,
    input: &[u8],
    names: &[u8],
    ends: &[u32],
    words: &mut [u32],
    text: &mut [u8],
    answers: &mut [u32],
) -> Reading
    ensures { record {
      reading = record { answer = result; words = words.new; text = text.new };
      answers = answers.new;
    }
        ≡ fields_read (record {
          config = of_numbers depth form zeros;
          duplicates = behavior duplicates;
          input = input.now;
          names = names.now;
          ends = ends.now;
        }) words.old text.old answers.old }
{
    let config = Config::of_numbers(depth, form, zeros);
    let duplicates = behavior(duplicates);
    de::deserialize_fields(input, names, ends, config, duplicates, words, text, answers)
}

// Reads `input` as `qs_parse` does, and then writes the sheet of its tree into `page`, 73 bytes a value, with the rest
// of `page` as it was. Where `page` is shorter, and where the reading is refused, it is unchanged.
#[unsafe(no_mangle)]
pub extern "C" fn qs_sheet(
    depth: u32,
    form: u32,
    zeros: u32,
    input: &[u8],
    words: &mut [u32],
    text: &mut [u8],
    page: &mut [u8],
) -> Reading
    ensures { record {
      reading = record { answer = result; words = words.new; text = text.new };
      page = page.new;
    }
        ≡ printing (of_numbers depth form zeros) input.now words.old text.old
        page.old }
{
    print::print_sheet(
        input,
        Config::of_numbers(depth, form, zeros),
        words,
        text,
        page,
    )
}

// Reads `input` as `qs_parse` does, and then writes an input that reads back as its tree into `out`, with the rest of
// `out` as it was. Where `out` is shorter or the length limit is passed, and where the reading is refused, it is
// unchanged.
#[unsafe(no_mangle)]
pub extern "C" fn qs_write(
    depth: u32,
    form: u32,
    zeros: u32,
    input: &[u8],
    words: &mut [u32],
    text: &mut [u8],
    out: &mut [u8],
) -> Written
    ensures { record {
      answer = result;
      words = words.new;
      text = text.new;
      out = out.new;
    }
        ≡ writing (of_numbers depth form zeros) input.now words.old text.old
        out.old }
{
    write::write(
        input,
        Config::of_numbers(depth, form, zeros),
        words,
        text,
        out,
    )
}
