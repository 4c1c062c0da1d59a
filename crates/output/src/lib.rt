// Bytes and numbers written into an output that the caller lends, and that may be too short. Each writer goes on from
// the place that the output is at, leaves all else in it as it was, and moves the place on. Bytes that find no room are
// cut, and a place past the output's length tells it.
// Clients cite specs/Wrote: `Wrote` is the contract of each writer; and specs/Output: `filled` is what stands in the
// output once all is written, and `answer_for` what to answer then. Numbers are specs/Numbers, and specs/Decimals says
// what `decimal` is.
// Below it stand bytes by name (ascii) and laws.
#![tactic(auto)]

pub mod numbers; // decimal and hex

ghost use Rattle.std.specs.Prelude.{◌≡◌, [], ◌∷◌, length, replicate};
ghost use Rattle.output.specs.Output.{answer_at};
ghost use Rattle.output.specs.Wrote.{Wrote};

// A lent slice that is written from its start on, and the place of the next byte: past the end, once some were cut.
// Stays one number, past the end once bytes are cut: `Puts` and `answer_at` (specs/Output) speak of that place.
pub struct Output<'a> {
    pub out: &'a mut [u8],
    pub at: usize,
}

// Its end leaves the lent slice as it is then.
impl Drop for Output<'_> {
    fn drop(self)
        ensures { self.exit.0.now ≡ self.entry.out.now }
    {
        let Output { out: _, at: _ } = self;
    }
}

impl<'a> Output<'a> {
    // An output of which nothing is written.
    pub fn new(out: &'a mut [u8]) -> Output<'a>
        ensures same { result.out.ghost_name ≡ out.entry.ghost_name }
        ensures start { (result.out.now ≡ out.old) × (result.at ≡ 0) }
    {
        Output { out, at: 0 }
    }

    // How many bytes are written, or none where some were cut.
    pub fn whole(&self) -> Option<usize>
        ensures { result ≡ answer_at self.now.at (length self.now.out.now) }
    {
        if self.at <= self.out.len() {
            Some(self.at)
        } else {
            None
        }
    }

    // Writes a byte.
    pub fn write_byte(&mut self, byte: u8)
        ensures { Wrote (byte ∷ []) self.old self.new }
    {
        if self.at < self.out.len() {
            self.out[self.at] = byte;
            self.at += 1;
        } else {
            self.at = self.out.len() + 1;
        }
    }

    // Writes a byte so many times: at once where there is room for all of them.
    pub fn write_repeated(&mut self, byte: u8, count: usize)
        ensures { Wrote (replicate count byte) self.old self.new }
    {
        let start = self.at;
        if start <= self.out.len() && count <= self.out.len() - start {
            self.out[start..start + count].fill(byte);
            self.at = start + count;
        } else {
            for _ in 0..count {
                self.write_byte(byte);
            }
        }
    }

    // Writes bytes as they are.
    pub fn write_bytes(&mut self, bytes: &[u8])
        ensures { Wrote bytes.now self.old self.new }
    {
        for byte in bytes {
            self.write_byte(*byte);
        }
    }
}
