// A set of offsets as a mask: offset i is in it where bit i is set. Offsets count from the oldest message, so that moving on is a shift. With
// the place of the oldest message an offset gives a message's place in its window (`channel::place`), and the types are called after these places.
// Contracts speak of the mask as a number: a window over 32 needs more words in the struct, and nothing above.
#![tactic(auto)]

ghost use Rattle.std.specs.Prelude.{◌≡◌, ◌/◌, ◌^◌, ◌<◌, ◌≤◌, eqb};
ghost use Rattle.places.specs.Places.{mask_of, set_of, widest, bit_of, with_bit, without_bit, within, count_of, rank_of};

#[repr(C)]
#[derive(Clone, Copy)]
pub struct Places {
    // Bit i stands for offset i.
    pub bits: u32,
}

impl Places {
    // How many offsets a set has room for: `widest` in the contracts.
    pub const WIDEST: usize = 32;

    // The set of no offsets.
    pub fn none() -> Places
        ensures { result ≡ set_of 0 }
    {
        Places { bits: 0 }
    }

    // Is offset i in the set?
    pub fn has(self, i: u32) -> bool
        requires { i < widest }
        ensures { result ≡ bit_of (mask_of self) i }
    {
        (self.bits >> i) & 1 == 1
    }

    // The set with offset i in it.
    pub fn with(self, i: u32) -> Places
        requires { i < widest }
        ensures { result ≡ set_of (with_bit (mask_of self) i) }
    {
        if self.has(i) {
            return self;
        }
        Places {
            bits: self.bits | (1 << i),
        }
    }

    // The set without offset i.
    pub fn without(self, i: u32) -> Places
        requires { i < widest }
        ensures { result ≡ set_of (without_bit (mask_of self) i) }
    {
        if self.has(i) {
            return Places {
                bits: self.bits - (1 << i),
            };
        }
        self
    }

    // The lowest d offsets leave, and the others move down by d.
    pub fn dropped(self, d: u32) -> Places
        ensures { result ≡ set_of (mask_of self / 2 ^ d) }
    {
        if d < 32 {
            return Places {
                bits: self.bits >> d,
            };
        }
        Places::none()
    }

    // Is no offset in the set?
    pub fn empty(self) -> bool
        ensures { result ≡ eqb (mask_of self) 0 }
    {
        self.bits == 0
    }

    // Is every offset of the set below n?
    pub fn within(self, n: u32) -> bool
        ensures { result ≡ within n (mask_of self) }
    {
        self.dropped(n).empty()
    }

    // How many offsets are in the set.
    pub fn count(self) -> u32
        ensures { result ≡ count_of (mask_of self) }
    {
        u32::count_ones(self.bits)
    }

    // One past the highest offset of the set; 0 where there is none.
    fn reach(self) -> u32
        ensures above { mask_of self < 2 ^ result }
        ensures room { result ≤ widest }
    {
        u32::BITS - self.bits.leading_zeros()
    }

    // The offset of the set that has exactly `rank` offsets of the set below it, if there is one.
    pub fn rank(self, rank: u32) -> Option<u32>
        ensures { result ≡ rank_of (mask_of self) rank }
    {
        let mut left = rank;
        for i in 0..self.reach() {
            if self.has(i) {
                if left == 0 {
                    return Some(i);
                }
                left -= 1;
            }
        }
        None
    }
}
