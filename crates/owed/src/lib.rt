// A line's owed acknowledgements, by value: one list for both channels (RULES 4.11), in order of entry (RULES 5.7).
// An entry is a word of 16 bits, channel (2) and number (14), as a packet carries it and as the record has it. `writing` puts them into packets.
#![tactic(auto)]

ghost use Rattle.std.specs.Prelude.{◌≡◌, ◌≤◌, ◌<◌, get_or};
ghost use Rattle.field.specs.Word.{word_of};
ghost use Rattle.owed.specs.Owed.{fresh_owed, owed_of, entered, first_three, without_three, owed_fits, mark_of};

use packet::Acks;

#[repr(C)]
#[derive(Clone, Copy)]
pub struct Owed {
    // The entries there are, oldest first; what stands after them is not read. An array and its count, because a book has no heap.
    pub numbers: [u16; 64],
    // How many entries there are. At most 64.
    pub count: u8,
}

impl Owed {
    pub const MOST: u8 = 64;

    // A list that owes nothing.
    pub fn fresh() -> Owed
        ensures { result ≡ fresh_owed }
    {
        Owed {
            numbers: [0; 64],
            count: 0,
        }
    }

    // The entries there are, oldest first.
    fn entries(&self) -> &[u16]
        ensures { result.now ≡ owed_of self.now }
    {
        let n = usize::from(self.count).min(self.numbers.len());
        &self.numbers[..n]
    }

    // The word enters the list unless it is there already or 64 are there.
    pub fn enter(self, word: u16) -> Owed
        requires { self.count ≤ 64 }
        ensures { result ≡ entered self word }
    {
        if Owed::MOST <= self.count {
            return self;
        }
        if self.entries().contains(&word) {
            return self;
        }
        let mut next = self;
        next.numbers[usize::from(self.count)] = word;
        next.count = self.count + 1;
        next
    }

    // Entry i, or 0 where there is none.
    fn entry(&self, i: usize) -> u16
        ensures { result ≡ get_or (owed_of self.now) i 0 }
    {
        self.entries().get(i).copied().unwrap_or(0)
    }

    // The first three entries, or all if fewer.
    #[tactic(auto, using(crate::proofs::Steps::three), unfolding(crate::specs::Owed::first_three))]
    pub fn first_three(self) -> Acks
        ensures { result ≡ first_three self }
    {
        Acks {
            count: self.count.min(3),
            one: self.entry(0),
            two: self.entry(1),
            three: self.entry(2),
        }
    }

    // The list without its first three entries, or all if fewer.
    #[tactic(auto, using(crate::proofs::Steps::left))]
    pub fn without_three(self) -> Owed
        requires { self.count ≤ 64 }
        ensures { result ≡ without_three self }
    {
        let left = self.count.saturating_sub(3);
        let mut next = self;
        next.numbers.copy_within(3..3 + usize::from(left), 0);
        next.count = left;
        next
    }

    // Is each entry of channel 1 or 2, and none there twice? Each leaves a mark, and only one that finds a mark is searched for.
    pub fn fits(self) -> bool
        ensures { result ≡ owed_fits self }
    {
        if Owed::MOST < self.count {
            return false;
        }
        if self.count == 0 {
            return true;
        }
        let entries = self.entries();
        let mut marks = [false; 128];
        for (i, word) in entries.iter().enumerate() {
            if !field::served(*word) {
                return false;
            }
            let at = mark(*word);
            if marks[at] && entries[..i].contains(word) {
                return false;
            }
            marks[at] = true;
        }
        true
    }
}

// Which of the 128 marks an entry leaves.
fn mark(word: u16) -> usize
    ensures { (result ≡ mark_of word) × (result < 128) }
{
    usize::from(word >> 15) * 64 + usize::from(word & 63)
}

// The word of a channel and a number.
pub fn word(channel: u8, number: u16) -> u16
    requires { (channel < 4) × (number < 16384) }
    ensures { result ≡ word_of channel number }
{
    (u16::from(channel) << 14) | number
}
