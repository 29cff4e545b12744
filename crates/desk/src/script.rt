// The octets of a script, cut into lines one by one, so that a script of any length is read with little memory. Blank lines and
// comments are counted and passed over.
use arrayvec::ArrayVec;
use std::num::wrapping_add_u64;

// The most octets of a line that is a call.
pub const LONGEST: usize = 2000;

// How many octets of a line are kept: one more shows that it is too long.
const KEPT: usize = LONGEST + 1;

// What a line is, as far as it was read.
#[derive(Clone, Copy, Debug, PartialEq, Eq)]
enum Sort {
    Blank,
    // The first word begins with `#`.
    Comment,
    Call,
}

// The line that is being read.
#[derive(Drop)]
pub struct Script {
    // The line's number, from 1, with every line counted.
    pub number: u64,
    sort: Sort,
    // Its octets; of a line that is too long the first of them.
    octets: ArrayVec<u8, KEPT>,
    // A carriage return was read that is part of a word unless a line feed follows.
    returned: bool,
}

impl Script {
    // The first line, of which nothing is read yet.
    pub fn fresh() -> Script {
        Script {
            number: 1,
            sort: Sort::Blank,
            octets: ArrayVec::new(),
            returned: false,
        }
    }

    // The octets of the line, if it gets an answer.
    pub fn call(&self) -> Option<&[u8]> {
        match self.sort {
            Sort::Call => Some(self.octets.as_slice()),
            Sort::Blank | Sort::Comment => None,
        }
    }

    // The next line begins.
    pub fn next_line(&mut self) {
        self.number = wrapping_add_u64(self.number, 1);
        self.sort = Sort::Blank;
        self.octets.clear();
        self.returned = false;
    }

    // The line has one octet more.
    fn push(&mut self, octet: u8) {
        if self.sort == Sort::Blank && !words::parts(octet) {
            self.sort = if octet == b'#' {
                Sort::Comment
            } else {
                Sort::Call
            };
        }
        if !self.octets.is_full() {
            self.octets.push(octet);
        }
    }

    // No line feed follows a carriage return.
    pub fn settle(&mut self) {
        if self.returned {
            self.returned = false;
            self.push(b'\r');
        }
    }

    // An octet is read that is no line feed.
    pub fn read(&mut self, octet: u8) {
        self.settle();
        if octet == b'\r' {
            self.returned = true;
        } else {
            self.push(octet);
        }
    }
}
