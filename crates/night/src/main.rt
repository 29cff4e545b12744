// A night at the garage. Four lines of a site dial in to its office; two gateways carry counts both ways on both channels, over a
// link that loses, repeats and reorders packets. Line 1 hands out slowly, line 2 goes through recovery, and line 3 closes and
// opens again while its first identifier rests. The night is worked out from a seed: `night SEED`, or one of its own.
#![tactic(auto)]

use clock::Turn;
use std::env::FillError;
use std::rt::Env;
use std::{io, str};
use story::Ends;
use stream::LINES;
use world::World;

mod air; // air.rt: the link
mod clock; // clock.rt: the turns of the night
mod dice; // dice.rt: chance, by the seed
mod ends; // ends.rt: what the gateway at one end does in a turn
mod message; // message.rt: what each message says
mod paper; // paper.rt: what is printed
mod station; // station.rt: the gateway at one end, and its calls
mod story; // story.rt: opening, modes, recovery, closing
mod stream; // stream.rt: the ends, and what each sends the other
mod tally; // tally.rt: what is counted
mod world; // world.rt: what the ends share

// Every how many turns a bar says how far the night has come.
const BAR: u16 = 500;

// The seed of the night that is run where none is named.
const SEED: u64 = 20030113;

#[derive(Drop)]
struct Night {
    ends: Ends,
    world: World,
}

impl Night {
    fn new(seed: u64) -> Night {
        Night {
            ends: Ends::new(),
            world: World::new(seed),
        }
    }

    // Line 3 begins its second call once its first is done.
    fn call_again(&mut self, rt: &impl Print) -> io::Result<()> {
        if !(self.world.ledger.is_line_done(3) && self.ends.is_first_call()) {
            return Ok(());
        }
        self.world.ledger.ask(3);
        let turn = self.world.dice.turn;
        self.ends.call_again(rt, turn, &mut self.world.ledger)
    }

    // One turn.
    fn turn(&mut self, rt: &impl Print) -> io::Result<()> {
        let turn = self.world.dice.turn;
        self.ends.site.serve(&mut self.world);
        self.ends.office.serve(&mut self.world);
        if turn.0 % BAR == 0 {
            paper::progress(rt, turn, &self.world.ledger)?;
        }
        self.ends.turn(rt, turn)?;
        self.call_again(rt)
    }

    // All lines close.
    fn end(&mut self, rt: &impl Print) -> io::Result<()> {
        let turn = self.world.dice.turn;
        paper::progress(rt, turn, &self.world.ledger)?;
        for line in 0..LINES {
            self.ends.hang_up(rt, turn, line, &mut self.world.ledger)?;
        }
        Ok(())
    }

    // The whole night, to the lines' end.
    fn run(&mut self, rt: &impl Print) -> io::Result<()> {
        for turn in 0..=Turn::LAST {
            self.world.dice.turn = Turn(turn);
            if turn == Turn::LAST || self.world.ledger.is_all_done() {
                break;
            }
            self.turn(rt)?;
        }
        self.end(rt)
    }
}

// A number: decimal digits, with no sign.
fn number(text: &[u8]) -> Option<u64> {
    if !text.iter().all(|octet| octet.is_ascii_digit()) {
        return None;
    }
    str::from_utf8(text).ok()?.parse().ok()
}

// The seed that the program was started with, or its own.
fn seed(rt: &impl Env) -> Option<u64> {
    let mut text = [0u8; 20];
    match rt.arg(1, &mut text) {
        Ok(count) => number(&text[..count]),
        Err(FillError::NotPresent) => Some(SEED),
        Err(FillError::TooLong) => None,
    }
}

// A night of that seed.
fn run(rt: &impl Print, seed: u64) -> io::Result<()> {
    let mut night = Night::new(seed);
    paper::title(rt, seed)?;
    night.run(rt)?;
    paper::table(rt, &night.world.ledger)?;
    paper::verdict(rt, &night.world.ledger)
}

fn main(rt: HostRuntime) -> io::Result<()> {
    match seed(&rt) {
        Some(seed) => run(&rt, seed),
        None => println!(rt; "night: the seed is a number of at most 20 digits"),
    }
}
