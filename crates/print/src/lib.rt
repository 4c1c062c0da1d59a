// The sheet of a reading, printed into a lent page (READING, 'The sheet'). What is promised stands in specs/Printing.
// Below it stand the reader (parse), the walk over the values (listing), the sheet's lines (sheet) and the definitions
// of a reading (reading).
#![tactic(auto)]

ghost use Rattle.std.specs.Prelude.{◌≡◌};
ghost use Rattle.print.specs.Printing.{printing};

use config::Config;
use reading::Reading;
use refusals::Refusal;

// Reads the input into the lent words and text, and writes the sheet of its tree into the lent page, a line a value.
// Words and text are as the reading leaves them. The page is unchanged past the last line, and where the reading or the
// page is refused.
pub fn print_sheet(
    input: &[u8],
    config: Config,
    words: &mut [u32],
    text: &mut [u8],
    page: &mut [u8],
) -> Reading
    ensures { record {
      reading = record { answer = result; words = words.new; text = text.new };
      page = page.new;
    }
        ≡ printing config input.now words.old text.old page.old }
{
    match parse::parse(input, config, words, text) {
        Ok(used) if page.len() < used.records as usize * sheet::LINE_BYTES => {
            Reading::from(used).refused_by(Refusal::ShortPage)
        }
        Ok(used) => {
            listing::write_sheet(words, text, page);
            used.into()
        }
        Err(refused) => refused.into(),
    }
}
