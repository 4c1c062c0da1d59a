// Shows raw segments: prints the default settings in the form of the listing program's head, and then for each line of
// standard input, a raw segment, the text shown of it after decoding into 16 bytes (decode's specs/ShownAfter).
// Below it stand the settings (config), decoding (decode) and the reading of input (input).
#![tactic(auto)]

ghost use Rattle.std.specs.Prelude.{◌≤◌, length, take, IfSome, OnOk, ◌++◌};
ghost use Rattle.std.specs.Io.KnownBytes.{Appends};
ghost use Rattle.show.specs.Lines.{EndsAt};
ghost use Rattle.show.specs.Printed.{ended, setting, defaults_printed, shown_within, lines_of, shown_lines};

use config::Config;
use std::io;
use std::io::{Read, Write};

// Prints a line with a setting.
fn print_setting<W: Write>(to: &mut W, name: &[u8], value: u64) -> io::Result<()>
    ensures { OnOk result (Appends (W.contents to.old) (W.contents to.new) (setting name.now value)) }
{
    to.write_all(name)?;
    writeln!(to, "{value}")
}

// Prints the default settings.
fn print_defaults<W: Write>(to: &mut W) -> io::Result<()>
    ensures { OnOk result (Appends (W.contents to.old) (W.contents to.new) defaults_printed) }
{
    let config = Config::new();
    print_setting(to, b"depth=", config.depth as u64)?;
    print_setting(to, b"form=", config.form as u64)
}

// Where the line that starts at `start` ends: at the next newline, or with the input.
fn line_end(input: &[u8], start: usize) -> usize
    requires { start ≤ length input.now }
    ensures { EndsAt input.now start result }
{
    match input[start..].iter().position(|b| *b == b'\n') {
        Some(len) => start + len,
        None => input.len(),
    }
}

// Prints the text shown of a raw segment after decoding it into `out`, and a newline.
fn print_shown<W: Write>(to: &mut W, raw: &[u8], out: &mut [u8]) -> io::Result<()>
    ensures { OnOk result (Appends (W.contents to.old) (W.contents to.new)
        (ended (shown_within (length out.old) raw.now))) }
{
    let answer = decode::decode(raw, out);
    to.write_all(decode::shown(raw, out, answer))?;
    to.write_all(b"\n")
}

// Prints the text shown of each line. What earlier lines left in `out` stays there. Kept by hand: `split` has an empty
// line behind the last newline, which is none here (`lines_of`).
fn print_lines<W: Write>(to: &mut W, input: &[u8], out: &mut [u8]) -> io::Result<()>
    ensures { OnOk result (Appends (W.contents to.old) (W.contents to.new)
        (shown_lines (length out.old) (lines_of input.now))) }
{
    let mut start = 0;
    while start < input.len() {
        let end = line_end(input, start);
        print_shown(to, &input[start..end], out)?;
        start = end + 1;
    }
    Ok(())
}

// Prints the default settings and the text shown of each line that it reads, at most as many bytes as `input` has room
// for: a line that goes on past them is cut there.
fn show<R: Read, W: Write>(
    from: &mut R,
    to: &mut W,
    input: &mut [u8],
    out: &mut [u8],
) -> io::Result<()>
    ensures { OnOk result (IfSome (R.remaining from.old) (λ bytes. Appends (W.contents to.old) (W.contents to.new)
        (defaults_printed ++ shown_lines (length out.old) (lines_of (take (length input.old) bytes))))) }
{
    print_defaults(to)?;
    let n = input::read_full(from, input)?;
    print_lines(to, &input[..n], out)
}

// Reads at most 65,536 bytes.
fn main(rt: HostRuntime) -> io::Result<()> {
    let mut input = [0u8; 65536];
    let mut out = [0u8; 16];
    show(&mut rt.stdin(), &mut io::writer(&rt), &mut input, &mut out)
}
