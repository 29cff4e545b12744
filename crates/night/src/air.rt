// The link between the gateways, with up to 512 packets under way. It loses one packet in eight, repeats one in sixteen, and
// delays each by one to four turns, and a repetition by one to eight, so that some overtake others.
use crate::clock::Turn;
use crate::dice::{Dice, Purpose};
use crate::station::PACKET;
use crate::stream::{End, Stream};
use crate::tally::Tally;
use arrayvec::ArrayVec;
use std::array;

// A packet under way.
#[derive(Drop)]
pub struct Packet {
    // The stream that it was written for, and which packet of it this is, from 1; none where it is a repetition.
    pub stream: Stream,
    pub serial: Option<u64>,
    pub octets: ArrayVec<u8, PACKET>,
    // The turn in which it arrives.
    due: u32,
}

impl Packet {
    // Does it arrive at an end in this turn?
    fn arrives(&self, end: End, turn: Turn) -> bool {
        self.due <= u32::from(turn.0) && self.stream.from != end
    }
}

// How many packets there can be under way; those written to a full link are lost.
const PLACES: usize = 512;

// The packet at a place, if it arrives at an end in this turn; it leaves the air.
pub fn landing(place: &mut Option<Packet>, end: End, turn: Turn) -> Option<Packet> {
    place.take_if(|packet| packet.arrives(end, turn))
}

#[derive(Drop)]
pub struct Air {
    pub places: [Option<Packet>; PLACES],
}

impl Air {
    // Nothing is under way.
    pub fn new() -> Air {
        Air {
            places: array::from_fn(|_| None),
        }
    }

    // A packet is under way, in the first free place, or lost where there is none.
    fn set_off(&mut self, packet: Packet, tally: &mut Tally) {
        match self.places.iter_mut().find(|place| place.is_none()) {
            Some(place) => *place = Some(packet),
            None => tally.note_lost(),
        }
    }

    // A packet that was written for a stream may be lost, and is due in one to four turns; it may be repeated, and the
    // repetition is due in one to eight.
    pub fn launch(
        &mut self,
        octets: ArrayVec<u8, PACKET>,
        stream: Stream,
        dice: Dice,
        tally: &mut Tally,
    ) {
        let serial = tally.note_written();
        if dice.roll(stream, Purpose::Loss(serial)) < 32 {
            tally.note_lost();
            return;
        }
        // To copy the octets allocates nothing, so it never fails.
        let again = if dice.roll(stream, Purpose::Repetition(serial)) < 16 {
            Some(octets.clone().unwrap())
        } else {
            None
        };
        let next = u32::from(dice.turn.0) + 1;
        let delay = dice.roll(stream, Purpose::Delay(serial)) / 64;
        let first = Packet {
            stream,
            serial: Some(serial),
            octets,
            due: next + u32::from(delay),
        };
        self.set_off(first, tally);
        if let Some(octets) = again {
            tally.note_repeated();
            let delay = dice.roll(stream, Purpose::RepetitionDelay(serial)) / 32;
            let repetition = Packet {
                stream,
                serial: None,
                octets,
                due: next + u32::from(delay),
            };
            self.set_off(repetition, tally);
        }
    }
}
