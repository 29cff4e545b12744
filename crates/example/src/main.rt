// A program to begin with: two gateways in one process carry twelve messages over a link that loses every third packet.
#![tactic(auto)]

use arrayvec::ArrayVec;
use book::Book;
use ground::Refusal;
use line::Settings;
use mode::Modes;
use std::io::Write;
use std::{fmt, io};
use thiserror::Error;

// How many messages are to cross.
const MESSAGES: u8 = 12;

// After so many rounds the program gives up.
const ROUNDS: u8 = 100;

// The line that is used at either end, and its channel.
const LINE: u8 = 0;

const CHANNEL: u8 = 1;

// So many octets hold every packet, and so many every message. Each lies in an `ArrayVec` of that capacity, which allocates nothing.
const PACKET: usize = 144;

const MESSAGE: usize = 132;

// What ends the program before its time.
#[derive(Drop, Error)]
enum Failure {
    #[error("a call is refused: {0}")]
    Refused(#[from] Refusal),
    #[error(transparent)]
    Output(#[from] io::Error),
}

// What is printed where `main` gives a failure: what failed, in its own words.
impl fmt::Debug for Failure {
    fn fmt<W: fmt::Write>(&self, f: &mut fmt::Formatter<W>) -> fmt::Result {
        match self {
            Failure::Refused(refusal) => write!(f, "a call is refused: {refusal}"),
            Failure::Output(error) => write!(f, "{error:?}"),
        }
    }
}

// A gateway: its book, and the store that it lends to the calls. A call that is refused leaves both as they were.
#[derive(Drop)]
struct End {
    book: Book,
    store: [u8; Book::STORE],
}

impl End {
    // A fresh gateway: its lines are closed, and its store is zeros.
    fn fresh() -> End {
        End {
            book: gateway::fresh(),
            store: [0; Book::STORE],
        }
    }

    // Opens the line and brings it into modem relay. Both ends name the same identifier and payload type.
    fn open(&mut self) -> Result<(), Refusal> {
        let settings = Settings {
            identifier: 5,
            kind: 98,
            vbd: true,
            relay: true,
        };
        let opened = gateway::open(self.book, LINE, settings, 0)?;
        let asked = gateway::ask(opened.book, LINE, Modes::MODEM, 0)?;
        self.book = asked.book;
        Ok(())
    }

    // Takes a message for sending, unless the window is FULL.
    fn take(&mut self, message: &[u8]) -> Result<bool, Refusal> {
        match gateway::take(self.book, &mut self.store, LINE, CHANNEL, message) {
            Ok(taken) => {
                self.book = taken.book;
                Ok(true)
            }
            Err(Refusal::FULL) => Ok(false),
            Err(refusal) => Err(refusal),
        }
    }

    // Writes a packet with one of the messages that are held unacknowledged, if any are. The rank varies from round to round, and
    // a program with a clock should vary its pauses too: a link that loses packets at a steady beat could lose the same message
    // every time.
    fn send(&mut self, round: u8) -> Result<Option<ArrayVec<u8, PACKET>>, Refusal> {
        let held = gateway::held(self.book, LINE, CHANNEL)?;
        if held == 0 {
            return Ok(None);
        }
        let rank = (u32::from(round) % held) as u8;
        let mut packet = ArrayVec::from([0; PACKET]);
        let sent = gateway::send(self.book, &self.store, LINE, CHANNEL, rank, &mut packet)?;
        self.book = sent.book;
        packet.truncate(sent.answer);
        Ok(Some(packet))
    }

    // Writes an empty packet: acknowledgements of what arrived, and base news.
    fn acknowledge(&mut self) -> Result<ArrayVec<u8, PACKET>, Refusal> {
        let mut packet = ArrayVec::from([0; PACKET]);
        let sent = gateway::empty(self.book, LINE, CHANNEL, &mut packet)?;
        self.book = sent.book;
        packet.truncate(sent.answer);
        Ok(packet)
    }

    // A packet arrives.
    fn arrive(&mut self, packet: &[u8]) -> Result<(), Refusal> {
        let arrived = gateway::arrive(self.book, &mut self.store, packet)?;
        self.book = arrived.book;
        Ok(())
    }

    // Hands out the next message. While it is still on its way there is NOTHING.
    fn hand_out(&mut self) -> Result<Option<ArrayVec<u8, MESSAGE>>, Refusal> {
        let mut message = ArrayVec::from([0; MESSAGE]);
        match gateway::hand_out(self.book, &self.store, LINE, CHANNEL, &mut message) {
            Ok(handed) => {
                self.book = handed.book;
                message.truncate(handed.answer);
                Ok(Some(message))
            }
            Err(Refusal::NOTHING) => Ok(None),
            Err(refusal) => Err(refusal),
        }
    }
}

// The two gateways, how many messages the site has taken, and how many the office has handed out.
#[derive(Drop)]
struct Ends {
    site: End,
    office: End,
    taken: u8,
    handed_out: u8,
}

impl Ends {
    // Both ends are fresh, and no message is taken yet.
    fn fresh() -> Ends {
        Ends {
            site: End::fresh(),
            office: End::fresh(),
            taken: 0,
            handed_out: 0,
        }
    }

    // Opens the line at both ends.
    fn open(&mut self) -> Result<(), Refusal> {
        self.site.open()?;
        self.office.open()
    }

    // The site takes the next message. One that it has no room for is offered again in the next round.
    fn take(&mut self) -> Result<(), Failure> {
        if self.taken < MESSAGES {
            let mut message = ArrayVec::<u8, MESSAGE>::new();
            write!(message, "level 2: {} cars\n", 10 + self.taken)?;
            if self.site.take(&message)? {
                self.taken += 1;
            }
        }
        Ok(())
    }

    // The site writes a packet. Of all packets the link loses every third: the site's in rounds 1, 4, 7 and so on.
    fn send(&mut self, round: u8) -> Result<(), Failure> {
        if let Some(packet) = self.site.send(round)? {
            if round % 3 != 1 {
                self.office.arrive(&packet)?;
            }
        }
        Ok(())
    }

    // The office hands out the next message, if it has come, and prints it. A packet brings at most one, so one a round keeps up.
    fn hand_out(&mut self, rt: &impl Print) -> Result<(), Failure> {
        if self.handed_out < MESSAGES {
            if let Some(message) = self.office.hand_out()? {
                rt.write_all(&message)?;
                self.handed_out += 1;
            }
        }
        Ok(())
    }

    // The office writes a packet of acknowledgements. The link loses the office's in rounds 2, 5, 8 and so on.
    fn acknowledge(&mut self, round: u8) -> Result<(), Failure> {
        let packet = self.office.acknowledge()?;
        if round % 3 != 2 {
            self.site.arrive(&packet)?;
        }
        Ok(())
    }

    // One round.
    fn turn(&mut self, rt: &impl Print, round: u8) -> Result<(), Failure> {
        self.take()?;
        self.send(round)?;
        self.hand_out(rt)?;
        self.acknowledge(round)
    }
}

fn main(rt: HostRuntime) -> Result<(), Failure> {
    let mut ends = Ends::fresh();
    ends.open()?;
    for round in 0..ROUNDS {
        if ends.handed_out == MESSAGES {
            break;
        }
        ends.turn(&rt, round)?;
    }
    println!(rt; "{} of {MESSAGES} messages handed out", ends.handed_out)?;
    Ok(())
}
