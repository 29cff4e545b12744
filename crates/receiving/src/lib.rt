// The receiving side of a channel, by value: the next message to hand out (RULES 5.8), what is stored (RULES 4.7) and where it lies
// (RULES 6.5). The window and the largest message are parameters.
// It says what becomes of a number that arrives, and when handing out is refused as SPENT or NOTHING. What the two sides count differs, so
// `fresh`, `emptied` and `fits` are told of each, and not of both at once.
#![tactic(auto)]

ghost use Rattle.std.specs.Prelude.{◌≡◌, ◌≤◌, ◌<◌};
ghost use Rattle.ground.specs.Refusal.{verdict};
ghost use Rattle.channel.specs.Channel.{cap};
ghost use Rattle.places.specs.Places.{widest};
ghost use Rattle.receiving.specs.Receiving.{ReceivingOk, fresh_receiving, arrival_of, arrival_place, stored_at, handed_out, emptied_receiving, next_size, hand_tests, receiving_fits};

use channel::{Channel, distance, place, sizes_fit};
use ground::Refusal;
use places::Places;

#[repr(C)]
#[derive(Clone, Copy)]
pub struct Receiving {
    // R: the next message to hand out, and how many were handed out. At most 16,777,215.
    pub next: u32,
    // Offset i is in the set where message R + i is stored. All are below the window.
    pub stored: Places,
    // The place of message R; message R + i lies i places further on. Below the window.
    pub origin: u32,
    // By place: how many octets the message there has.
    pub sizes: [u16; Places::WIDEST],
}

// What becomes of a number that arrives with a payload.
#[derive(Clone, Copy)]
pub enum Arrival {
    // It is stored, this far past R.
    Stored(u32),
    // Its place is filled: the first stays.
    There,
    // It is not in the window.
    Old,
}

impl Receiving {
    // A side that has handed out nothing.
    pub fn fresh() -> Receiving
        ensures { result ≡ fresh_receiving }
    {
        let none = Places::none();
        let sizes = [0u16; Places::WIDEST];
        Receiving {
            next: 0,
            stored: none,
            origin: 0,
            sizes,
        }
    }

    // What becomes of number n.
    pub fn arrival(self, window: u32, n: u32) -> Arrival
        requires { window ≤ widest }
        ensures { result ≡ arrival_of window self n }
    {
        let d = distance(n, self.next);
        if window <= d {
            return Arrival::Old;
        }
        if self.stored.has(d) {
            return Arrival::There;
        }
        Arrival::Stored(d)
    }

    // The place of the message that is d past R.
    pub fn place_of(self, window: u32, d: u32) -> u32
        requires { ReceivingOk window self × (d < window) }
        ensures { result ≡ arrival_place window self d }
    {
        place(self.origin, d, window)
    }

    // The message that is d past R is stored, of `size` octets.
    pub fn stored_at(self, window: u32, d: u32, size: u16) -> Receiving
        requires { ReceivingOk window self × (d < window) }
        ensures { result ≡ stored_at window self d size }
    {
        let at = self.place_of(window, d) as usize;
        let mut next = self;
        next.stored = self.stored.with(d);
        next.sizes[at] = size;
        next
    }

    // May message R be handed out? SPENT, then NOTHING.
    pub fn may_hand_out(self) -> Result<(), Refusal>
        ensures { result ≡ verdict (hand_tests self) }
    {
        if Channel::CAP <= self.next {
            return Err(Refusal::SPENT);
        }
        if !self.stored.has(0) {
            return Err(Refusal::NOTHING);
        }
        Ok(())
    }

    // The size of message R, which lies at place `origin`.
    pub fn next_size(self) -> u16
        requires { self.origin < widest }
        ensures { result ≡ next_size self }
    {
        let at = self.origin as usize;
        self.sizes[at]
    }

    // Message R is handed out: R moves on.
    pub fn handed_out(self, window: u32) -> Receiving
        requires { ReceivingOk window self × (self.next < cap) }
        ensures { result ≡ handed_out window self }
    {
        let mut next = self;
        next.next = self.next + 1;
        next.stored = self.stored.dropped(1);
        next.origin = place(self.origin, 1, window);
        next
    }

    // The side with nothing stored any more; its count stays.
    pub fn emptied(self) -> Receiving
        ensures { result ≡ emptied_receiving self }
    {
        let none = Places::none();
        Receiving {
            stored: none,
            ..self
        }
    }

    // What BOOK asks of a receiving side.
    pub fn fits(self, window: u32, largest: u16) -> bool
        requires { window ≤ widest }
        ensures { result ≡ receiving_fits window largest self }
    {
        if Channel::CAP < self.next {
            return false;
        }
        if window <= self.origin {
            return false;
        }
        if self.stored.empty() {
            return true;
        }
        if !self.stored.within(window) {
            return false;
        }
        let sizes = self.sizes;
        sizes_fit(sizes, self.stored, self.origin, window, largest)
    }
}
