// The desk: it reads a script of calls on standard input, makes each call at one of two gateways, A and B, and writes one line
// of answer for each. It decides nothing: it reads a line, makes the call, and writes what the call answered. docs/SCRIPT.md
// says what a line may be.
#![tactic(auto)]

use answer::{Denied, Reply};
use book::Book;
use parse::{Request, Which};
use script::Script;
use std::io;
use std::io::{Input, Read};
use words::Fault;

mod answer; // answer.rt: the words of an answer
mod bodies; // bodies.rt: CONNECT, BREAK and slips
mod commands; // commands.rt: the calls at a gateway
mod parse; // parse.rt: what a line asks for
mod record; // record.rt: `spoil`, one part of a line's record
mod script; // script.rt: the script's octets, cut into lines
mod sides; // sides.rt: `spoil`, one part of a channel's sides
mod spoil; // spoil.rt: `spoil`, the part of a book that it names

// A gateway: its book, its store, and how many octets of the store are lent.
#[derive(Drop)]
pub struct Seat {
    pub book: Book,
    pub store: [u8; Book::STORE],
    pub lent: usize,
}

impl Seat {
    // A fresh book, and the store lent whole.
    fn fresh() -> Seat {
        Seat {
            book: Book::fresh(),
            store: [0; Book::STORE],
            lent: Book::STORE,
        }
    }

    // The octets of the store that are lent.
    pub fn lent(&self) -> &[u8] {
        &self.store[..self.lent.min(self.store.len())]
    }

    // The same, to be written.
    pub fn lent_mut(&mut self) -> &mut [u8] {
        let count = self.lent.min(self.store.len());
        &mut self.store[..count]
    }
}

// The gateways A and B.
#[derive(Drop)]
struct Desk {
    a: Seat,
    b: Seat,
}

impl Desk {
    fn fresh() -> Desk {
        Desk {
            a: Seat::fresh(),
            b: Seat::fresh(),
        }
    }

    // The gateway that is named.
    fn seat(&mut self, which: Which) -> &mut Seat {
        match which {
            Which::A => &mut self.a,
            Which::B => &mut self.b,
        }
    }

    // Makes the call that a line asks for, if it asks for one.
    fn heed(&mut self, line: &[u8], octets: &mut [u8]) -> Result<Reply, Denied> {
        if script::LONGEST < line.len() {
            return Err(Denied::NoCall(Fault::TooLong));
        }
        Ok(match parse::read(line, octets)? {
            Request::At(which, call, a) => self.seat(which).make(call, a, octets)?,
            Request::SpoilBook(which, part, a) => self.seat(which).spoil(part, a),
            Request::SpoilLine(which, i, part, a) => {
                self.seat(which).spoil_line(i, part, a, octets)?
            }
            Request::Body(call, a) => bodies::make(call, a, octets)?,
        })
    }

    // A line of the script that has ended is answered, unless it is blank or a comment.
    fn answer(
        &mut self,
        rt: &(impl Print + Eprint),
        script: &Script,
        octets: &mut [u8],
    ) -> io::Result<()> {
        if let Some(line) = script.call() {
            let answer = self.heed(line, octets);
            answer::say(rt, answer, script.number, octets)?;
        }
        Ok(())
    }

    // More of the script is read: each line that ends in it is answered.
    fn read(
        &mut self,
        rt: &(impl Print + Eprint),
        script: &mut Script,
        part: &[u8],
        octets: &mut [u8],
    ) -> io::Result<()> {
        for octet in part {
            match *octet {
                b'\n' => {
                    self.answer(rt, script, octets)?;
                    script.next_line();
                }
                octet => script.read(octet),
            }
        }
        Ok(())
    }
}

// Reads the script to its end, part by part, and answers it line by line.
fn run(rt: &(impl Input + Print + Eprint), desk: &mut Desk, octets: &mut [u8]) -> io::Result<()> {
    let mut script = Script::fresh();
    let mut reader = rt.reader();
    let mut part = [0; 4096];
    // A proved loop has to end, and nothing says that a script does. No run reads so many parts.
    for _ in 0..u64::MAX {
        let count = reader.read(&mut part)?;
        if count == 0 {
            break;
        }
        desk.read(rt, &mut script, &part[..count], octets)?;
    }
    script.settle();
    desk.answer(rt, &script, octets)
}

fn main(rt: HostRuntime) -> io::Result<()> {
    let mut desk = Desk::fresh();
    let mut octets = [0u8; 600];
    run(&rt, &mut desk, &mut octets)?;
    rt.write_all(b"end\n")
}
