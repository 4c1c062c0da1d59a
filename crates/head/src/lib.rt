// The head of the listing program's input: the settings of a reading, and where the query string starts. Its definition
// is specs/Heads. Below it stand digits and texts as bytes (ascii) and laws.
#![tactic(auto)]

ghost use Rattle.std.specs.Prelude.{◌≡◌, ◌-◌, ◌≤◌, true, length};
ghost use Rattle.ascii.specs.Bytes.{zero, nine};
ghost use Rattle.ascii.specs.Digits.{all_digits};
ghost use Rattle.head.specs.Heads.{leading_digits, depth_of, flag_in, depth_in, head_of};

// The settings of a reading and where the query string, READING's ticket, starts.
#[derive(Clone, Copy)]
pub struct Head {
    pub depth: usize,
    pub form: bool,
    pub start: usize,
}

// The number of digits that bytes begin with.
fn count_digits(bytes: &[u8]) -> usize
    ensures { result ≡ length (leading_digits bytes.now) }
{
    bytes.iter().take_while(|b| b.is_ascii_digit()).count()
}

// The value of a digit.
fn digit(b: u8) -> usize
    requires { (zero ≤ b) × (b ≤ nine) }
    ensures { (result ≡ b - zero) × (result ≤ 9) }
{
    usize::from(b - b'0')
}

// The depth that digits write: one digit, or two or three of which the first is no zero.
fn depth_of(digits: &[u8]) -> Option<usize>
    requires { all_digits digits.now ≡ true }
    ensures { result ≡ depth_of digits.now }
{
    match *digits {
        [a] => Some(digit(a)),
        [a, b] if a != b'0' => Some(digit(a) * 10 + digit(b)),
        [a, b, c] if a != b'0' => Some((digit(a) * 10 + digit(b)) * 10 + digit(c)),
        _ => None,
    }
}

// The head whose depth and start of the query string are known, by its flag.
fn parse_flag(depth: usize, start: usize, bytes: &[u8]) -> Option<Head>
    ensures { result ≡ flag_in depth start bytes.now }
{
    let form = if bytes.starts_with(b"\nform=0\n") {
        false
    } else if bytes.starts_with(b"\nform=1\n") {
        true
    } else {
        return None;
    };
    Some(Head { depth, form, start })
}

// The head, from its depth on.
fn parse_depth(bytes: &[u8]) -> Option<Head>
    ensures { result ≡ depth_in bytes.now }
{
    let (digits, rest) = bytes.split_at(count_digits(bytes));
    let depth = depth_of(digits)?;
    parse_flag(depth, digits.len() + 14, rest)
}

// The head of an input, and none where it is bad.
pub fn parse_head(input: &[u8]) -> Option<Head>
    ensures { result ≡ head_of input.now }
{
    parse_depth(input.strip_prefix(b"depth=")?)
}
