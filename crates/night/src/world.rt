// What the two ends share: the link between them, the night's chance, and what is counted.
use crate::air::Air;
use crate::clock::Turn;
use crate::dice::Dice;
use crate::station::PACKET;
use crate::stream::Stream;
use crate::tally::Ledger;
use arrayvec::ArrayVec;

#[derive(Drop)]
pub struct World {
    pub dice: Dice,
    pub ledger: Ledger,
    pub air: Air,
}

impl World {
    // Before the first turn of the night of a seed: nothing is under way, and all lines are asked for one call's messages.
    pub fn new(seed: u64) -> World {
        let mut ledger = Ledger::default();
        ledger.ask_all();
        World {
            dice: Dice {
                seed,
                turn: Turn(0),
            },
            ledger,
            air: Air::new(),
        }
    }

    // A packet that was written for a stream goes into the air.
    pub fn launch(&mut self, stream: Stream, octets: ArrayVec<u8, PACKET>) {
        let tally = self.ledger.of_mut(stream);
        self.air.launch(octets, stream, self.dice, tally);
    }
}
