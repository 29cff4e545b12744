// What the gateway at one end of the lines does in a turn: messages are taken, written, read as they arrive, and handed out.
use crate::air;
use crate::air::Packet;
use crate::dice::Purpose;
use crate::message::Message;
use crate::station::Station;
use crate::stream::{Channel, LINES, Stream};
use crate::tally::Tally;
use crate::world::World;

// How many steps of each stream there are in a turn.
const STEPS: u8 = 4;

// The rank of the message to write: any of the first 32, as the dice say, or the oldest where there is none of that rank; none
// where no message is held.
fn rank(held: u32, roll: u8) -> Option<u8> {
    let any = roll % 32;
    if held == 0 {
        None
    } else if u32::from(any) < held {
        Some(any)
    } else {
        Some(0)
    }
}

// Of 256 times, how often a line's own program fetches a message. That of line 1 is slow.
fn pace(line: u8) -> u8 {
    if line == 1 { 12 } else { 200 }
}

impl Station {
    // Reads what arrives in a turn, and does the turn's work.
    pub fn serve(&mut self, world: &mut World) {
        self.read_arrivals(world);
        self.work(world);
    }

    fn read_arrivals(&mut self, world: &mut World) {
        let end = self.end;
        let turn = world.dice.turn;
        for place in world.air.places.iter_mut() {
            if let Some(packet) = air::landing(place, end, turn) {
                self.read(&packet, world.ledger.of_mut(packet.stream));
            }
        }
    }

    // Reads a packet that arrives, and counts it among its stream's.
    fn read(&mut self, packet: &Packet, tally: &mut Tally) {
        tally.note_arrived(packet.serial);
        if self.arrive(&packet.octets).is_err() {
            tally.note_refused();
        }
    }

    // Four steps of each of the eight streams that this end sends.
    fn work(&mut self, world: &mut World) {
        for line in 0..LINES {
            for channel in [Channel::One, Channel::Two] {
                let stream = Stream::new(self.end, line, channel);
                for step in 0..STEPS {
                    self.step(world, stream, step);
                }
            }
        }
    }

    // One step of a stream; what comes back on its channel is handed out. An empty packet is written in a turn's first step only.
    fn step(&mut self, world: &mut World, stream: Stream, step: u8) {
        if world.ledger.is_done_both_ways(stream) {
            return;
        }
        self.take_next(world, stream);
        self.fetch(world, stream.back(), step);
        self.write_held(world, stream, step);
        if step == 0 {
            self.write_empty(world, stream);
        }
    }

    // Takes the next message of a stream, if one is left and its channel has room.
    fn take_next(&mut self, world: &mut World, stream: Stream) {
        let tally = world.ledger.of_mut(stream);
        if tally.asked <= tally.taken {
            return;
        }
        let message = Message::of(stream, tally.taken).octets();
        if self.take(stream, &message).is_ok() {
            tally.note_taken(message.len() as u64);
        }
    }

    // Hands out the next message of a stream, and holds it against the one that was taken.
    fn fetch(&mut self, world: &mut World, stream: Stream, step: u8) {
        if pace(stream.line) <= world.dice.roll(stream, Purpose::Fetch(step)) {
            return;
        }
        if let Some(octets) = self.hand_out(stream) {
            let tally = world.ledger.of_mut(stream);
            let right = Message::of(stream, tally.handed_out).says(&octets);
            tally.note_handed_out(right);
        }
    }

    // Writes one of the messages that are held.
    fn write_held(&mut self, world: &mut World, stream: Stream, step: u8) {
        let held = self.held(stream).unwrap_or(0);
        let roll = world.dice.roll(stream, Purpose::Rank(step));
        let Some(rank) = rank(held, roll) else {
            return;
        };
        if let Some(octets) = self.send(stream, rank) {
            world.launch(stream, octets);
        }
    }

    // Writes an empty packet: acknowledgements and base news.
    fn write_empty(&mut self, world: &mut World, stream: Stream) {
        if let Some(octets) = self.empty(stream) {
            world.launch(stream, octets);
        }
    }
}
