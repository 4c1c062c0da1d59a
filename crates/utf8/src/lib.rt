// Whether bytes are UTF-8 by RFC 3629 (READING, 'Decoding'). In the source it is `std::str::from_utf8`, which
// `decode_utf8` of src/de/string_parser.rs calls. What is promised stands in specs/Decides.antt.
// Below it stands `laws`.
#![tactic(auto)]

ghost use Rattle.std.specs.Prelude.{◌≡◌};
ghost use Rattle.utf8.specs.Decides.{Decides};
ghost use Rattle.utf8.specs.Test.{due, first, next, second, tails, utf8};

// How many more bytes are needed to end a character, and the bounds of the next of them, both included.
#[derive(Clone, Copy)]
struct Due {
    needed: u8,
    lower: u8,
    upper: u8,
}

impl Due {
    // A byte is needed and its range is empty, so that it stays needed whatever comes. Kept by hand: it is a state of
    // the automaton of specs/Test, and as an Option the loop would test it beside the range, which is no plainer.
    const REFUSED: Due = Due {
        needed: 1,
        lower: 1,
        upper: 0,
    };

    // So many bytes, the next of them from `lower` to `upper`.
    fn new(needed: u8, lower: u8, upper: u8) -> Due
        ensures { result ≡ due needed lower upper }
    {
        Due {
            needed,
            lower,
            upper,
        }
    }

    // So many times UTF8-tail. At 0 no character is begun.
    fn tails(needed: u8) -> Due
        ensures { result ≡ tails needed }
    {
        Due::new(needed, 0x80, 0xBF)
    }

    // What is due after the first byte of a character, where so many more are needed.
    #[tactic(auto, unfolding(crate::specs::Test::second))]
    fn second(needed: u8, byte: u8) -> Due
        ensures { result ≡ second needed byte }
    {
        match byte {
            0xE0 => Due::new(needed, 0xA0, 0xBF),
            0xED => Due::new(needed, 0x80, 0x9F),
            0xF0 => Due::new(needed, 0x90, 0xBF),
            0xF4 => Due::new(needed, 0x80, 0x8F),
            _ => Due::tails(needed),
        }
    }

    // What is due after a byte where no character is begun.
    #[tactic(auto, unfolding(crate::specs::Test::first))]
    fn first(byte: u8) -> Due
        ensures { result ≡ first byte }
    {
        match byte {
            0x00..=0x7F => Due::tails(0),
            0xC2..=0xDF => Due::tails(1),
            0xE0..=0xEF => Due::second(2, byte),
            0xF0..=0xF4 => Due::second(3, byte),
            _ => Due::REFUSED,
        }
    }

    // What is due after any byte.
    #[tactic(auto, unfolding(crate::specs::Test::next))]
    fn next(self, byte: u8) -> Due
        ensures { result ≡ next self byte }
    {
        if self.needed == 0 {
            Due::first(byte)
        } else if (self.lower..=self.upper).contains(&byte) {
            Due::tails(self.needed - 1)
        } else {
            Due::REFUSED
        }
    }
}

// Whether the bytes are UTF-8. It reads them and changes nothing. Kept by hand: std's `from_utf8` promises std's
// definition, and what is promised here is the RFC's grammar (`TestDecides`).
pub fn is_utf8(bytes: &[u8]) -> bool
    ensures value { result ≡ utf8 bytes.now }
    ensures decides { Decides result bytes.now }
{
    let mut due = Due::tails(0);
    for byte in bytes {
        due = due.next(*byte);
    }
    due.needed == 0
}
