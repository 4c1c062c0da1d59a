// The listing program (READING, 'The listing'): reads a head and a query string from standard input and prints the
// listing of its reading. What it prints is specs/Reply, what it lends specs/Lending. Below it stand the reading of
// input (input), the head's reader (head), the reader of query strings (parse) and the listing's writers (listing,
// output).
#![tactic(auto)]

ghost use Rattle.std.specs.Prelude.{◌≡◌, length, IfSome, OnOk};
ghost use Rattle.std.specs.Io.KnownBytes.{Appends};
ghost use Rattle.reading.specs.Reading.{reading};
ghost use Rattle.listing.specs.Listing.{listing};
ghost use Rattle.list.specs.Reply.{reply};
ghost use Rattle.list.specs.Lending.{read_bytes, LentSlices, WroteAll};

use config::Config;
use reading::Reading;
use std::io;
use std::io::{Read, Write};

// How many bytes of its input the program reads. Bytes past them change nothing: specs/Enough.
const READ_BYTES: usize = 65553;

// How many records and text bytes it lends a reading.
const LENT_RECORDS: usize = 2000;

const LENT_BYTES: usize = 65535;

// How many bytes its output has.
const OUTPUT_BYTES: usize = 262144;

// Reads a query string into words and text, and writes the listing of the outcome. The rest of the output stays as it
// was.
// Stays a clause, `LentSlices`: it is of the lengths of three slices that are lent apart, down to the reader.
fn respond_to(
    query: &[u8],
    config: Config,
    words: &mut [u32],
    text: &mut [u8],
    out: &mut [u8],
) -> usize
    requires { LentSlices words.old text.old out.old }
    ensures { WroteAll
        (listing (reading config query.now words.old text.old))
        out.old out.new result }
{
    let answer = Reading::from(parse::parse(query, config, words, text));
    // The output is never cut: the contract says so.
    listing::list(answer, words, text, out).unwrap_or(0)
}

// Writes what the program prints for an input. The rest of the output stays as it was.
fn respond(input: &[u8], words: &mut [u32], text: &mut [u8], out: &mut [u8]) -> usize
    requires { LentSlices words.old text.old out.old }
    ensures { WroteAll (reply input.now words.old text.old)
        out.old out.new result }
{
    match head::parse_head(input) {
        None => listing::list_bad_head(out).unwrap_or(0),
        Some(head) => {
            respond_to(
                &input[head.start..],
                Config::with(head.depth, head.form, false),
                words,
                text,
                out,
            )
        }
    }
}

// Prints the reply to an input.
fn run<W: Write>(
    to: &mut W,
    input: &[u8],
    words: &mut [u32],
    text: &mut [u8],
    out: &mut [u8],
) -> io::Result<()>
    requires { LentSlices words.old text.old out.old }
    ensures { OnOk result (Appends (W.contents to.old) (W.contents to.new) (reply input.now words.old text.old)) }
{
    let n = respond(input, words, text, out);
    to.write_all(&out[0..n])
}

// Reads an input, up to the first `READ_BYTES` of its bytes, and prints the reply to all of it.
fn serve<R: Read, W: Write>(
    from: &mut R,
    to: &mut W,
    input: &mut [u8],
    words: &mut [u32],
    text: &mut [u8],
    out: &mut [u8],
) -> io::Result<()>
    requires room { length input.old ≡ read_bytes }
    requires lent { LentSlices words.old text.old out.old }
    ensures { OnOk result (IfSome (R.remaining from.old) (λ bytes.
        Appends (W.contents to.old) (W.contents to.new) (reply bytes words.old text.old))) }
{
    let n = input::read_full(from, input)?;
    run(to, &input[..n], words, text, out)
}

// Lends what a reading needs.
fn main(rt: HostRuntime) -> io::Result<()> {
    let mut input = [0u8; READ_BYTES];
    let mut words = [0u32; LENT_RECORDS * row::WIDTH];
    let mut text = [0u8; LENT_BYTES];
    let mut out = [0u8; OUTPUT_BYTES];
    serve(
        &mut rt.stdin(),
        &mut io::writer(&rt),
        &mut input,
        &mut words,
        &mut text,
        &mut out,
    )
}
