// The gateway at one end of the lines, with its book and its store: every call of the library is made here. A call that is
// refused leaves the book as it was.
ghost use Rattle.std.specs.Prelude.{◌<◌};

use crate::stream::{End, Stream};
use arrayvec::ArrayVec;
use book::Book;
use gateway::After;
use ground::Refusal;
use line::Settings;
use mode::Due;
use slip::Slip;

// The most octets of a packet, and of a message.
pub const PACKET: usize = 144;

pub const MESSAGE: usize = 132;

#[derive(Drop)]
pub struct Station {
    pub end: End,
    book: Book,
    store: [u8; Book::STORE],
}

// What a call wrote to an output, if it was not refused.
fn written<const N: usize>(out: [u8; N], wrote: Result<usize, Refusal>) -> Option<ArrayVec<u8, N>> {
    let size = wrote.ok()?;
    let mut octets = ArrayVec::from(out);
    octets.truncate(size);
    Some(octets)
}

impl Station {
    // Four closed lines.
    pub fn new(end: End) -> Station {
        Station {
            end,
            book: gateway::fresh(),
            store: [0; Book::STORE],
        }
    }

    // Keeps the book that a call leaves, if it was not refused, and gives its answer.
    fn keep<T>(&mut self, gave: Result<After<T>, Refusal>) -> Result<T, Refusal> {
        let after = gave?;
        self.book = after.book;
        Ok(after.answer)
    }

    // The identifier that a line was opened with.
    pub fn identifier(&self, line: u8) -> u8
        requires { line < 4 }
    {
        self.book.line(line).identifier
    }

    // Opens a line with an identifier; it offers voiceband data and modem relay.
    pub fn open(&mut self, line: u8, identifier: u8, time: u64) -> Result<(), Refusal> {
        let settings = Settings {
            identifier,
            kind: 98,
            vbd: true,
            relay: true,
        };
        self.keep(gateway::open(self.book, line, settings, time))
    }

    // Requests a mode of a line.
    pub fn ask(&mut self, line: u8, mode: u8, time: u64) {
        if let Ok(asked) = gateway::ask(self.book, line, mode, time) {
            self.book = asked.book;
        }
    }

    // Hears of the other end's mode of a line.
    pub fn hear(&mut self, line: u8, mode: u8, time: u64) {
        if let Ok(heard) = gateway::hear(self.book, line, mode, time) {
            self.book = heard.book;
        }
    }

    // Tells a line the time, and answers which audio indication is due, if one is.
    pub fn tick(&mut self, line: u8, time: u64) -> Option<u8> {
        match self.keep(gateway::tick(self.book, line, time)) {
            Ok(Due::Audio(indication)) => Some(indication),
            _ => None,
        }
    }

    // Takes a message for sending, and answers its number.
    pub fn take(&mut self, stream: Stream, message: &[u8]) -> Result<u16, Refusal> {
        let taken = gateway::take(
            self.book,
            &mut self.store,
            stream.line,
            stream.channel.number(),
            message,
        );
        self.keep(taken)
    }

    // How many messages of a stream are held.
    pub fn held(&self, stream: Stream) -> Result<u32, Refusal> {
        gateway::held(self.book, stream.line, stream.channel.number())
    }

    // Writes a packet with the message of a rank among those that are held.
    pub fn send(&mut self, stream: Stream, rank: u8) -> Option<ArrayVec<u8, PACKET>> {
        let mut out = [0; PACKET];
        let sent = gateway::send(
            self.book,
            &self.store,
            stream.line,
            stream.channel.number(),
            rank,
            &mut out,
        );
        written(out, self.keep(sent))
    }

    // Writes a packet with acknowledgements and base news alone.
    pub fn empty(&mut self, stream: Stream) -> Option<ArrayVec<u8, PACKET>> {
        let mut out = [0; PACKET];
        let sent = gateway::empty(self.book, stream.line, stream.channel.number(), &mut out);
        written(out, self.keep(sent))
    }

    // A packet arrives, and its line is answered.
    pub fn arrive(&mut self, packet: &[u8]) -> Result<u8, Refusal> {
        let arrived = gateway::arrive(self.book, &mut self.store, packet);
        self.keep(arrived)
    }

    // Hands out the next message of a stream.
    pub fn hand_out(&mut self, stream: Stream) -> Option<ArrayVec<u8, MESSAGE>> {
        let mut out = [0; MESSAGE];
        let handed = gateway::hand_out(
            self.book,
            &self.store,
            stream.line,
            stream.channel.number(),
            &mut out,
        );
        written(out, self.keep(handed))
    }

    // Closes a line, and answers its slip.
    pub fn close(&mut self, line: u8) -> Result<[u8; Slip::LENGTH], Refusal> {
        let mut slip = [0u8; Slip::LENGTH];
        let closed = gateway::close(self.book, line, &mut slip);
        self.keep(closed)?;
        Ok(slip)
    }
}
