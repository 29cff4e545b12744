// The night's chance. A roll is worked out from the seed, the turn and what it is rolled for, so that one seed is one night.
use crate::clock::Turn;
use crate::stream::Stream;

#[derive(Clone, Copy)]
pub struct Dice {
    pub seed: u64,
    pub turn: Turn,
}

// What a roll decides, of a packet by its serial number or in a step of a turn.
#[derive(Clone, Copy)]
pub enum Purpose {
    // Whether the packet is lost, when it arrives, whether it is repeated, and when the repetition arrives.
    Loss(u64),
    Delay(u64),
    Repetition(u64),
    RepetitionDelay(u64),
    // Which of the messages held is written, and whether one is fetched.
    Rank(u8),
    Fetch(u8),
}

impl Purpose {
    // Its number among the rolls of one stream in one turn.
    fn number(self) -> u64 {
        match self {
            Purpose::Loss(serial) => serial << 4 ^ 1,
            Purpose::Delay(serial) => serial << 4 ^ 2,
            Purpose::Repetition(serial) => serial << 4 ^ 3,
            Purpose::RepetitionDelay(serial) => serial << 4 ^ 4,
            Purpose::Rank(step) => u64::from(step) + 100,
            Purpose::Fetch(step) => u64::from(step) + 200,
        }
    }
}

// The lower half of a number times a large odd one, with its upper bits laid over its lower ones.
pub fn mixed(n: u64) -> u64 {
    let wide = n % (1 << 32) * 2654435761;
    wide ^ wide >> 29
}

impl Dice {
    // A number below 256, for one purpose of one stream in this turn.
    pub fn roll(self, stream: Stream, purpose: Purpose) -> u8 {
        let a = mixed(self.seed ^ u64::from(self.turn.0) << 12);
        let b = mixed(a ^ (stream.number() as u64) << 20 ^ purpose.number());
        (mixed(b) / 65536 % 256) as u8
    }
}
