// Replays stored answers: standard input holds readings with all that they have to answer and to leave (FORMAT.md);
// each is made by `parse` and compared, and made again from behind some other bytes. Prints a line for each case that
// differs, and at the end how many cases there are and how many differ.
// Below it stand the reading of input (input), the reader (parse), the settings (config), the answer's struct
// (reading) and a record's row (row).
#![tactic(auto)]

mod compare; // what a reading answers and leaves, against what is stored
mod stored; // the stored cases

use reading::Reading;
use std::io;
use std::io::{Read, Write};
use stored::Case;

// How many bytes stand in front of an input, for the reading that starts behind them.
const LEAD: usize = 4;

// Makes the reading of a case, in slices as long as it lends, and tells whether it answers and leaves what is stored.
// `left` holds the words and the text that it has to leave.
fn agrees(case: Case, query: &[u8], left: &[u8], words: &mut [u32], text: &mut [u8]) -> bool {
    compare::fill(words, text);
    let config = stored::config_of(case);
    let answer = Reading::from(parse::parse(query, config, words, text));
    compare::as_stored(case, answer, left, words, text)
}

// The same for the reading of what stands behind the bytes in front. Kept beside `agrees`: that both `parse` and
// `parse_at` are called is what is tested.
fn agrees_behind(
    case: Case,
    input: &[u8],
    left: &[u8],
    words: &mut [u32],
    text: &mut [u8],
) -> bool {
    compare::fill(words, text);
    let config = stored::config_of(case);
    let answer = Reading::from(parse::parse_at(input, LEAD, config, words, text));
    compare::as_stored(case, answer, left, words, text)
}

// Makes both readings of a case, whose input stands behind the bytes in front.
fn agrees_twice(case: Case, input: &[u8], left: &[u8], words: &mut [u32], text: &mut [u8]) -> bool {
    let Some(query) = input.get(LEAD..) else {
        return false;
    };
    agrees(case, query, left, words, text) && agrees_behind(case, input, left, words, text)
}

// Hands a case the part of each slice that is its own, and makes its readings. False where a slice is too short.
fn replay_in(case: Case, input: &[u8], left: &[u8], words: &mut [u32], text: &mut [u8]) -> bool {
    let len = LEAD + case.len as usize;
    let Some(input) = input.get(..len) else {
        return false;
    };
    let Some(words) = words.get_mut(..case.words as usize) else {
        return false;
    };
    let Some(text) = text.get_mut(..case.text as usize) else {
        return false;
    };
    agrees_twice(case, input, left, words, text)
}

// Reads the next case, behind the bytes in front, and makes its readings. False where one differs, or where the input
// doesn't hold the case whole.
fn replay_case<R: Read>(
    from: &mut R,
    input: &mut [u8],
    left: &mut [u8],
    words: &mut [u32],
    text: &mut [u8],
) -> io::Result<bool> {
    let mut head = [0u8; 36];
    if input::read_full(from, &mut head)? < 36 {
        return Ok(false);
    }
    let case = stored::case_of(&head);
    let Some(query) = input.get_mut(LEAD..) else {
        return Ok(false);
    };
    let whole = stored::read(from, query, case.len as usize)?
        && stored::read(from, left, stored::left_len(case))?;
    Ok(whole && replay_in(case, input, left, words, text))
}

// Writes a text, a number and a text.
fn print<W: Write>(to: &mut W, before: &[u8], n: u32, after: &[u8]) -> io::Result<()> {
    to.write_all(before)?;
    write!(to, "{n}")?;
    to.write_all(after)
}

// Replays so many cases, numbered from 1, and answers how many differ. Prints a line for each of these.
fn replay<R: Read, W: Write>(
    from: &mut R,
    to: &mut W,
    count: u32,
    input: &mut [u8],
    left: &mut [u8],
    words: &mut [u32],
    text: &mut [u8],
) -> io::Result<u32> {
    let mut differ = 0;
    for done in 0..count {
        if !replay_case(from, input, left, words, text)? {
            differ += 1;
            print(to, b"case ", done + 1, b" differs\n")?;
        }
    }
    Ok(differ)
}

// The most that a stored case has: bytes of input, records, and bytes of text.
const INPUT: usize = 65536;

const RECORDS: usize = 2000;

const TEXT: usize = 65535;

fn main(rt: HostRuntime) -> io::Result<()> {
    let mut input = [b'x'; LEAD + INPUT];
    let mut left = [0u8; RECORDS * row::WIDTH * 4 + TEXT];
    let mut words = [0u32; RECORDS * row::WIDTH];
    let mut text = [0u8; TEXT];
    let mut from = rt.stdin();
    let mut to = io::writer(&rt);
    let count = stored::read_count(&mut from)?;
    let differ = replay(
        &mut from, &mut to, count, &mut input, &mut left, &mut words, &mut text,
    )?;
    print(&mut to, b"", count, b" cases, ")?;
    print(&mut to, b"", differ, b" differ\n")
}
