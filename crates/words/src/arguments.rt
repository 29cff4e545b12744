// The words that a call asks for, read all at once.
ghost use Rattle.std.specs.Prelude.{◌≡◌, ◌≤◌, length, take, IfOk, Some};
ghost use Rattle.words.specs.Answer.{fault_said};

use crate::{read_mode, read_number, read_octets, split_word};
use std::error::Error;
use std::fmt;

// Why a line is no call.
#[derive(Clone, Copy, Debug, PartialEq, Eq)]
pub enum Fault {
    Unknown,
    Missing,
    Extra,
    Wrong,
    TooLong,
    OutOfReach,
}

impl fmt::Display for Fault {
    ghost output = { λ fault. Some (fault_said fault) };

    fn fmt<W: fmt::Write>(&self, f: &mut fmt::Formatter<W>) -> fmt::Result {
        f.write_str(match self {
            Fault::Unknown => "no such call",
            Fault::Missing => "a word is missing",
            Fault::Extra => "a word too many",
            Fault::Wrong => "a word is not of its kind, or a number too large",
            Fault::TooLong => "too long",
            Fault::OutOfReach => "a message out of reach",
        })
    }
}

impl Error for Fault {}

// What a call asks for in one word.
#[derive(Clone, Copy, Debug, PartialEq, Eq)]
pub enum Kind {
    // A number, at most that one.
    UpTo(u64),
    // A channel, 1 or 2.
    Channel,
    // A mode's letter.
    Mode,
    // A mode's letter, or its number of 8 bits.
    ModeOrNumber,
    Octets,
    // The space of the output, at most 600; 256 where it is left out.
    Space,
}

// The number that a word says, if it is at most that one.
fn up_to(most: u64, word: &[u8]) -> Option<u64> {
    read_number(word).filter(|n| *n <= most)
}

impl Kind {
    // The value of a word, if it is a number or a mode as asked for.
    fn value(self, word: &[u8]) -> Option<u64> {
        match self {
            Kind::UpTo(most) => up_to(most, word),
            Kind::Channel => up_to(2, word).filter(|n| *n != 0),
            Kind::Mode => read_mode(word),
            Kind::ModeOrNumber => read_mode(word).or(up_to(255, word)),
            Kind::Octets => None,
            Kind::Space => up_to(600, word),
        }
    }

    // The value where the word is left out, if it may be.
    fn left_out(self) -> Option<u64> {
        match self {
            Kind::Space => Some(256),
            _ => None,
        }
    }
}

// The words of a call.
#[derive(Clone, Copy)]
pub struct Arguments {
    // The numbers, flags and modes, each at the place of its word.
    values: [u64; 19],
    // How many octets were read.
    pub size: usize,
}

// A call of a table: its name, which call it is, and the words that it asks for.
#[derive(Clone, Copy)]
pub struct Entry<'a, C>(pub &'a [u8], pub C, pub &'a [Kind]);

// The words of a call, each of the kind asked for. Octets are put at the start of `out`, which is their most. The first fault is told.
pub fn read(line: &[u8], kinds: &[Kind], out: &mut [u8]) -> Result<Arguments, Fault>
    ensures { IfOk result (λ arguments. arguments.size ≤ length out.new) }
{
    let mut values = [0; 19];
    let mut size = 0;
    let mut rest = line;
    for (value, kind) in values.iter_mut().zip(kinds) {
        let Some((word, behind)) = split_word(rest) else {
            *value = kind.left_out().ok_or(Fault::Missing)?;
            continue;
        };
        match kind {
            Kind::Octets => size = read_octets(word, out).ok_or(Fault::Wrong)?,
            _ => *value = kind.value(word).ok_or(Fault::Wrong)?,
        }
        rest = behind;
    }
    match split_word(rest) {
        Some(_) => Err(Fault::Extra),
        None => Ok(Arguments { values, size }),
    }
}

// The call of a table that the first word of a line names, and the words that it asks for.
pub fn call<C: Copy>(
    line: &[u8],
    table: &[Entry<'_, C>],
    out: &mut [u8],
) -> Result<(C, Arguments), Fault>
    ensures { IfOk result (λ named. named.1.size ≤ length out.new) }
{
    let (name, rest) = split_word(line).ok_or(Fault::Unknown)?;
    let entry = table
        .iter()
        .find(|entry| entry.0 == name)
        .ok_or(Fault::Unknown)?;
    let arguments = read(rest, entry.2, out)?;
    Ok((entry.1, arguments))
}

impl Arguments {
    // The i-th value.
    pub fn long(self, i: usize) -> u64 {
        self.values.get(i).copied().unwrap_or(0)
    }

    // The i-th value, of 8 bits.
    pub fn octet(self, i: usize) -> u8 {
        (self.long(i) & 0xff) as u8
    }

    // The i-th value, of 16 bits.
    pub fn short(self, i: usize) -> u16 {
        (self.long(i) & 0xffff) as u16
    }

    // The i-th value, of 32 bits.
    pub fn full(self, i: usize) -> u32 {
        (self.long(i) & 0xffffffff) as u32
    }

    // The i-th value, a flag.
    pub fn flag(self, i: usize) -> bool {
        self.long(i) == 1
    }

    // The i-th value as an output's space, of at most so many octets.
    pub fn space(self, i: usize, most: usize) -> usize
        ensures { result ≤ most }
    {
        most.min(self.long(i) as usize)
    }

    // The octets that were read, which lie at the start of `out`.
    pub fn octets(self, out: &[u8]) -> &[u8]
        ensures { result.now ≡ take self.size out.now }
    {
        &out[..self.size.min(out.len())]
    }
}
