// The stored cases, as FORMAT.md lays them out.
ghost use Rattle.std.specs.Prelude.{◌+◌, ◌≤◌, length};

use config::Config;
use reading::Reading;
use std::io;
use std::io::Read;

// What stands at the front of a case: the settings, what is lent, the input's length, and what the reading has to
// answer.
#[derive(Clone, Copy)]
pub(crate) struct Case {
    pub depth: u32,
    pub form: u32,
    pub words: u32,
    pub text: u32,
    pub len: u32,
    pub answer: Reading,
}

// The number in the four bytes from a place on, lowest byte first.
fn number_at(bytes: &[u8], at: usize) -> u32
    requires { at + 4 ≤ length bytes.now }
{
    u32::from_le_bytes([bytes[at], bytes[at + 1], bytes[at + 2], bytes[at + 3]])
}

// The front of a case.
pub(crate) fn case_of(front: &[u8; 36]) -> Case {
    Case {
        depth: number_at(front, 0),
        form: number_at(front, 4),
        words: number_at(front, 8),
        text: number_at(front, 12),
        len: number_at(front, 16),
        answer: Reading {
            number: number_at(front, 20),
            place: number_at(front, 24),
            records: number_at(front, 28),
            bytes: number_at(front, 32),
        },
    }
}

// The settings of a case. The key setting, which the stored answers' source has not, is off.
pub(crate) fn config_of(case: Case) -> Config {
    Config::with(case.depth as usize, case.form == 1, false)
}

// How many bytes hold a record: four a word.
pub(crate) const RECORD: usize = row::WIDTH * 4;

// How many bytes hold the words and the text that a case leaves.
pub(crate) fn left_len(case: Case) -> usize {
    let answer = case.answer;
    answer.records as usize * RECORD + answer.bytes as usize
}

// Reads the next n bytes of the input to the front of a slice, and tells whether they were there and found room.
pub(crate) fn read<R: Read>(from: &mut R, buffer: &mut [u8], n: usize) -> io::Result<bool> {
    match buffer.get_mut(..n) {
        Some(part) => Ok(input::read_full(from, part)? == n),
        None => Ok(false),
    }
}

// Reads the number of cases, with which the input begins: 0 where it is cut short.
// Stays a number: an input that is cut short there holds no case, and 0 says that.
pub(crate) fn read_count<R: Read>(from: &mut R) -> io::Result<u32> {
    let mut bytes = [0u8; 4];
    let got = input::read_full(from, &mut bytes)?;
    if got < 4 {
        return Ok(0);
    }
    Ok(number_at(&bytes, 0))
}
