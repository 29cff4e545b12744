// The words of one line of a script, and the numbers, modes and octets that they say. Which calls there are, and which words each of
// them asks for, is said by `desk`.
#![tactic(auto)]

ghost use Rattle.std.specs.Prelude.{◌+◌, ◌≤◌, length, IfSome};

mod answer; // answer.rt: the words of an answer
mod arguments; // arguments.rt: the words that a call asks for, all at once
mod digits; // digits.rt: what digits say

pub use answer::{Hexadecimal, Numbers, Refused};
pub use arguments::{Arguments, Entry, Fault, Kind, call, read};
pub use digits::read_number;

// Does an octet part words: a space or a tab?
pub fn parts(octet: u8) -> bool {
    matches!(octet, b' ' | b'\t')
}

// The first word of a line and what stands behind it; nothing where no word is left.
pub fn split_word(line: &[u8]) -> Option<(&[u8], &[u8])>
    ensures { IfSome result (λ halves. length halves.0.now + length halves.1.now ≤ length line.now) }
{
    let from = line.iter().position(|octet| !parts(*octet))?;
    let rest = &line[from..];
    let to = rest
        .iter()
        .position(|octet| parts(*octet))
        .unwrap_or(rest.len());
    Some(rest.split_at(to))
}

// A mode, by its letter, as Table C.1 numbers it; 0 is i.
pub fn read_mode(word: &[u8]) -> Option<u64> {
    match word {
        b"i" => Some(0),
        b"a" => Some(1),
        b"v" => Some(2),
        b"m" => Some(3),
        b"f" => Some(4),
        b"t" => Some(5),
        _ => None,
    }
}

// Octets in hexadecimal, put at the start of `out`, or `-` for none; no more than `out` has room for. Answers how many they are.
pub fn read_octets(word: &[u8], out: &mut [u8]) -> Option<usize>
    ensures { IfSome result (λ count. count ≤ length out.new) }
{
    if matches!(word, b"-") {
        return Some(0);
    }
    let count = word.len() / 2;
    if word.len() % 2 != 0 || out.len() < count {
        return None;
    }
    for (octet, pair) in out.iter_mut().zip(word.chunks_exact(2)) {
        *octet = digits::hex_digit(pair[0])? << 4 | digits::hex_digit(pair[1])?;
    }
    Some(count)
}
