// What each message says. The k-th message of a stream is worked out, never kept, so that what is handed out is held against
// what was taken and not against a copy.
use crate::dice;
use crate::station::MESSAGE;
use crate::stream::Stream;
use arrayvec::ArrayVec;

#[derive(Clone, Copy)]
pub struct Message {
    seed: u64,
}

impl Message {
    // The k-th message of a stream.
    pub fn of(stream: Stream, k: u64) -> Message {
        Message {
            seed: dice::mixed(k ^ (stream.number() as u64) << 26),
        }
    }

    // How many octets it has: 1 to 132.
    fn size(self) -> usize {
        (self.seed / 256 % 132) as usize + 1
    }

    // Its octet at i.
    fn octet(self, i: usize) -> u8 {
        (dice::mixed(self.seed ^ i as u64) / 256 % 256) as u8
    }

    pub fn octets(self) -> ArrayVec<u8, MESSAGE> {
        let mut octets = ArrayVec::from([0; MESSAGE]);
        octets.truncate(self.size());
        for (i, octet) in octets.iter_mut().enumerate() {
            *octet = self.octet(i);
        }
        octets
    }

    // Does it say this, octet for octet?
    pub fn says(self, octets: &[u8]) -> bool {
        octets.len() == self.size()
            && octets
                .iter()
                .enumerate()
                .all(|(i, octet)| *octet == self.octet(i))
    }
}
