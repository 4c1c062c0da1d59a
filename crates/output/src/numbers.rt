// Decimal and hex.
ghost use Rattle.std.specs.Prelude.{◌≡◌, ◌<◌, ◌++◌, length};
ghost use Rattle.ascii.specs.Texts.{ascii};
ghost use Rattle.output.specs.Numbers.{decimal, hex_digit, hex};
ghost use Rattle.output.specs.Wrote.{Wrote};

use crate::Output;

// A digit of lower-case hex.
pub fn hex_digit(n: u8) -> u8
    requires { n < 16 }
    ensures { result ≡ hex_digit n }
{
    if n < 10 { b'0' + n } else { b'a' - 10 + n }
}

// How many digits a number has in decimal. (Stays a `while`: it goes down by tens and counts no index.)
pub fn decimal_len(n: usize) -> usize
    ensures { result ≡ length (decimal n) }
{
    let mut len = 1;
    let mut rest = n;
    while 10 <= rest {
        rest /= 10;
        len += 1;
    }
    len
}

impl<'a> Output<'a> {
    // Writes bytes in hex.
    pub fn write_hex(&mut self, bytes: &[u8])
        ensures { Wrote (hex bytes.now) self.old self.new }
    {
        for byte in bytes {
            self.write_byte(hex_digit(*byte / 16));
            self.write_byte(hex_digit(*byte % 16));
        }
    }

    // Writes a number in decimal: the digits before its last by calling itself, then the last. (Stays by hand: `write!`
    // into a lent slice that may be too short says nothing of the bytes that were cut.)
    pub fn write_decimal(&mut self, n: usize)
        ensures { Wrote (decimal n) self.old self.new }
    {
        let last = b'0' + (n % 10) as u8;
        if n < 10 {
            return self.write_byte(last);
        }
        self.write_decimal(n / 10);
        self.write_byte(last);
    }

    // Writes a line of a name and a number.
    pub fn write_number(&mut self, name: &[u8], n: usize)
        ensures { Wrote (name.now ++ decimal n ++ ascii "\n") self.old self.new }
    {
        self.write_bytes(name);
        self.write_decimal(n);
        self.write_byte(b'\n');
    }
}
