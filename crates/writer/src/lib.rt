// The writer: writes the input for the tree that records hold (ser's `written`), or measures it. One walk serves both.
// Clients cite, of the output, specs/Pages, of the tree, specs/Filled, and of a length, specs/Measuring.
// Below it stand the definition (ser), a record's row (row), the key rule (key), the settings (config), the definitions
// of a reading (reading), numbers in an output (output), bytes by name (ascii) and laws.
#![tactic(auto)]

mod bytes; // a byte, escapes and decimal, written where there is room
mod keys; // a key's own part
mod walk; // the walk over the values

ghost use Rattle.std.specs.Prelude.{◌≡◌};
ghost use Rattle.reading.specs.Buffers.{value_in, tree_in};
ghost use Rattle.output.specs.Output.{page};
ghost use Rattle.ser.specs.Writing.{written};
ghost use Rattle.writer.specs.Pages.{Holds};
ghost use Rattle.writer.specs.Filled.{FilledRoot};
ghost use Rattle.writer.specs.Measuring.{length_within};

use config::Config;
use row::Lent;
use walk::{Item, Place};

// What is written: the tree that lent words and text hold, by these settings.
#[derive(Clone, Copy)]
pub(crate) struct Source<'a> {
    pub config: Config,
    pub lent: Lent<'a>,
}

// Writes the input for the tree that words and text hold, as much of it as the output has room for and the length limit
// allows. Answers its length, or the length limit and one more where it is longer. Past it the output is unchanged.
// Stays a number, one past the limit where it is longer: the contracts say it so (`length_within`, specs/Measuring).
pub fn write_tree(config: Config, words: &[u32], text: &[u8], out: &mut [u8]) -> usize
    ensures { FilledRoot (value_in words.now text.now) → Holds out.old
        (written config (tree_in words.now text.now)) (page out.new result) }
{
    let source = Source {
        config,
        lent: Lent { words, text },
    };
    if source.is_undecided() {
        return bytes::put(b'&', out, 0);
    }
    let place = Place {
        start: 0,
        end: 0,
        level: 0,
        repeats: config.depth == 0,
    };
    let n = 0;
    let left = words.len();
    source.write_value(Item { n, left, place }, out)
}

// How long that is, or the length limit and one more where it is longer.
pub fn measure(config: Config, words: &[u32], text: &[u8]) -> usize
    ensures { FilledRoot (value_in words.now text.now) → result ≡ length_within
        (written config (tree_in words.now text.now)) }
{
    let mut scratch = [0u8; 1];
    write_tree(config, words, text, &mut scratch)
}
