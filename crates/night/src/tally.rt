// What is counted of each stream.
ghost use Rattle.std.specs.Prelude.{◌<◌};

use crate::stream::{Channel, LINES, STREAMS, Stream};

#[derive(Clone, Copy, Default)]
pub struct Tally {
    // How many messages are to be carried, were taken, were handed out as they were taken, and were so by the slips.
    pub asked: u64,
    pub taken: u64,
    pub handed_out: u64,
    pub by_slip: u64,
    // The octets taken.
    pub octets: u64,
    // Packets: written, lost, repeated and overtaken on the way, and refused where they arrived.
    pub written: u64,
    pub lost: u64,
    pub repeated: u64,
    pub overtaken: u64,
    pub refused: u64,
    // Messages handed out that are not the next of those taken, octet for octet.
    pub wrong: u64,
    // The latest packet that has arrived, counted as they were written.
    latest: u64,
}

// How many messages a stream is asked to carry on one call: on channel 1 of line 0 so many that their numbers begin again.
fn asked(stream: Stream) -> u64 {
    match (stream.line, stream.channel) {
        (0, Channel::One) => 17000,
        (1, _) => 700,
        (_, Channel::One) => 2000,
        (_, Channel::Two) => 500,
    }
}

// No count of a night comes near its type's end.
fn count(counter: &mut u64, n: u64) {
    *counter = counter.saturating_add(n);
}

impl Tally {
    // Is everything carried that was to be?
    fn is_done(&self) -> bool {
        self.handed_out == self.asked
    }

    // Are the slips, and what was taken, what was handed out?
    pub fn agrees(&self) -> bool {
        self.taken == self.handed_out && self.by_slip == self.handed_out
    }

    pub fn note_taken(&mut self, octets: u64) {
        count(&mut self.taken, 1);
        count(&mut self.octets, octets);
    }

    // Counts a message that was handed out, as the one that was taken or as another.
    pub fn note_handed_out(&mut self, right: bool) {
        if right {
            count(&mut self.handed_out, 1);
        } else {
            count(&mut self.wrong, 1);
        }
    }

    // Counts the messages that a slip says were handed out.
    pub fn note_slip(&mut self, handed_out: u32) {
        count(&mut self.by_slip, u64::from(handed_out));
    }

    // Counts a packet that was written, and answers which of its stream it is, from 1.
    pub fn note_written(&mut self) -> u64 {
        count(&mut self.written, 1);
        self.written
    }

    pub fn note_lost(&mut self) {
        count(&mut self.lost, 1);
    }

    pub fn note_repeated(&mut self) {
        count(&mut self.repeated, 1);
    }

    // Counts a packet's arrival: it was overtaken if a later one of its stream came before it. A repetition has no serial number.
    pub fn note_arrived(&mut self, serial: Option<u64>) {
        match serial {
            Some(serial) if self.latest < serial => self.latest = serial,
            Some(_) => count(&mut self.overtaken, 1),
            None => {}
        }
    }

    pub fn note_refused(&mut self) {
        count(&mut self.refused, 1);
    }
}

// The tallies of all streams.
#[derive(Clone, Copy, Default)]
pub struct Ledger {
    tallies: [Tally; STREAMS],
}

impl Ledger {
    pub fn of(&self, stream: Stream) -> &Tally {
        &self.tallies[stream.number()]
    }

    pub fn of_mut(&mut self, stream: Stream) -> &mut Tally {
        &mut self.tallies[stream.number()]
    }

    // Asks the streams of a line for one call's messages.
    pub fn ask(&mut self, line: u8)
        requires { line < 4 }
    {
        for stream in Stream::of_line(line) {
            count(&mut self.of_mut(stream).asked, asked(stream));
        }
    }

    // Asks all lines for one call's messages.
    pub fn ask_all(&mut self) {
        for line in 0..LINES {
            self.ask(line);
        }
    }

    // Is everything carried that was to be, both ways of a stream?
    pub fn is_done_both_ways(&self, stream: Stream) -> bool {
        self.of(stream).is_done() && self.of(stream.back()).is_done()
    }

    // Is it, on the four streams of a line?
    pub fn is_line_done(&self, line: u8) -> bool
        requires { line < 4 }
    {
        Stream::of_line(line)
            .iter()
            .all(|stream| self.of(*stream).is_done())
    }

    // Is it, on all of them?
    pub fn is_all_done(&self) -> bool {
        self.tallies.iter().all(|tally| tally.is_done())
    }

    // A count over all streams.
    pub fn total<F: Fn(&Tally) -> u64>(&self, count: F) -> u64
        requires { F.IsAlwaysCallable count }
    {
        self.tallies
            .iter()
            .fold(0, |sum: u64, tally| sum.saturating_add(count(tally)))
    }

    // Is all as it has to be?
    pub fn is_right(&self) -> bool {
        self.tallies.iter().all(|tally| tally.is_done() && tally.agrees() && tally.wrong == 0)
    }
}
