// Where message octets lie (RULES 6.4), and how they are put there and copied out. A line has a part of the one lent store. A region is
// the slots of one way and one channel in that part: where it starts, and how large a slot is. What lies in a slot, and for how long, is
// said by the record of the side that owns it; how many slots there are, by the line; where a line's part lies, by the book.
#![tactic(auto)]

ghost use Rattle.std.specs.Prelude.{◌≡◌, ◌++◌, ◌+◌, ◌*◌, ◌^◌, ◌≤◌, ◌<◌, length, drop};
ghost use Rattle.std.proofs.lemmas.List.Edits.{sets};
ghost use Rattle.store.specs.Store.{region_from, slot_at, SlotIn, octets_in};

// The way that messages go: taken for sending, or stored as they arrive.
#[derive(Clone, Copy)]
pub enum Way {
    Sending,
    Receiving,
}

#[derive(Clone, Copy)]
pub struct Region {
    // The octet of the line's part that the first slot begins at.
    pub start: usize,
    // How many octets a slot has: the largest message's.
    pub size: usize,
}

impl Region {
    // The slots of a channel among those of one way, which begin at `start`: channel 1 has `slots` of them, and channel 2 those after.
    pub fn from(start: usize, slots: u32, size: usize, channel: u8) -> Region
        requires { start + slots * size < 2 ^ 64 }
        ensures { result ≡ region_from start slots size channel }
    {
        if channel == 1 {
            return Region { start, size };
        }
        Region {
            start: start + slots as usize * size,
            size,
        }
    }

    // The octet that the slot of a place begins at.
    pub fn slot(self, place: u32) -> usize
        requires { slot_at self place < 2 ^ 64 }
        ensures { result ≡ slot_at self place }
    {
        self.start + place as usize * self.size
    }

    // Puts a message into the slot of a place, from the slot's first octet on. All other octets stay.
    #[tactic(auto, using(crate::proofs::Octets::written, std::proofs::lemmas::Grind::common_steps))]
    pub fn put(self, part: &mut [u8], place: u32, message: &[u8])
        requires { SlotIn self place (length part.old) × (length message.now ≤ self.size) }
        ensures { part.new ≡ sets part.old (slot_at self place) message.now }
    {
        let at = self.slot(place);
        part[at..at + message.len()].copy_from_slice(message);
    }

    // Copies the first `size` octets in the slot of a place to the front of an output. The output's other octets stay.
    pub fn copy_out(self, part: &[u8], place: u32, size: usize, out: &mut [u8])
        requires { SlotIn self place (length part.now) × (size ≤ self.size) × (size ≤ length out.old) }
        ensures { out.new ≡ octets_in part.now self place size ++ drop size out.old }
    {
        let from = self.slot(place);
        out[..size].copy_from_slice(&part[from..from + size]);
    }
}
