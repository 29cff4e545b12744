// The sending side of a channel, by value: what was taken (RULES 5.1), the last base heard (RULES 4.3), what is held unacknowledged
// (RULES 4.5, RULES 5.3) and where it lies (RULES 6.5). The window and the largest message are parameters.
// It says when taking is refused as SPENT or FULL; the other refusals of taking are in `relay`, and the octets in `store`.
#![tactic(auto)]

ghost use Rattle.std.specs.Prelude.{◌≡◌, ◌-◌, ◌≤◌, ◌<◌};
ghost use Rattle.ground.specs.Refusal.{verdict};
ghost use Rattle.channel.specs.Channel.{cap};
ghost use Rattle.places.specs.Places.{widest};
ghost use Rattle.sending.specs.Sending.{SendingOk, fresh_sending, next_place, took_one, heard_base, acknowledged_by, emptied_sending, held_count, held_of, take_tests, sending_fits};

use channel::{Channel, distance, place, sizes_fit};
use ground::Refusal;
use places::Places;

#[repr(C)]
#[derive(Clone, Copy)]
pub struct Sending {
    // S: how many messages were taken. At most 16,777,215.
    pub taken: u32,
    // h: the last base heard. At most S, and S - h is at most the window.
    pub base: u32,
    // Offset i is in the set where message h + i is held unacknowledged. All are below S - h.
    pub unacked: Places,
    // The place of message h; message h + i lies i places further on. Below the window.
    pub origin: u32,
    // By place: how many octets the message there has. Beside the set, which is by offset, so that no size moves when the set does.
    pub sizes: [u16; Places::WIDEST],
}

// The side once an acknowledgement has been heard, and whether that named a message held unacknowledged. Both are always there, so it is no Option.
#[derive(Clone, Copy)]
pub struct Acknowledged {
    pub side: Sending,
    pub named: bool,
}

// A held message: its full number, the place where it lies and its size.
#[derive(Clone, Copy)]
pub struct Held {
    pub number: u32,
    pub place: u32,
    pub size: u16,
}

impl Sending {
    // A side that has taken nothing.
    pub fn fresh() -> Sending
        ensures { result ≡ fresh_sending }
    {
        let none = Places::none();
        let sizes = [0u16; Places::WIDEST];
        Sending {
            taken: 0,
            base: 0,
            unacked: none,
            origin: 0,
            sizes,
        }
    }

    // May a message be taken? SPENT, then FULL.
    pub fn may_take(self, window: u32) -> Result<(), Refusal>
        requires { self.base ≤ self.taken }
        ensures { result ≡ verdict (take_tests window self) }
    {
        if Channel::CAP <= self.taken {
            return Err(Refusal::SPENT);
        }
        if window <= self.taken - self.base {
            return Err(Refusal::FULL);
        }
        Ok(())
    }

    // The place where the next message taken lies.
    pub fn next_place(self, window: u32) -> u32
        requires { SendingOk window self }
        ensures { result ≡ next_place window self }
    {
        place(self.origin, self.taken - self.base, window)
    }

    // One message more, of `size` octets.
    pub fn took(self, window: u32, size: u16) -> Sending
        requires { SendingOk window self × (self.taken < cap) × (self.taken - self.base < window) }
        ensures { result ≡ took_one window self size }
    {
        let at = self.next_place(window) as usize;
        let i = self.taken - self.base;
        let mut next = self;
        next.unacked = self.unacked.with(i);
        next.sizes[at] = size;
        next.taken = self.taken + 1;
        next
    }

    // Base b is heard: h moves on to it if that is ahead and not past S, and what is below h is dropped.
    pub fn heard_base(self, window: u32, b: u32) -> Sending
        requires { SendingOk window self }
        ensures { result ≡ heard_base window self b }
    {
        let d = distance(b, self.base);
        if d == 0 {
            return self;
        }
        if self.taken - self.base < d {
            return self;
        }
        let mut next = self;
        next.base = self.base + d;
        next.unacked = self.unacked.dropped(d);
        next.origin = place(self.origin, d, window);
        next
    }

    // Number k is acknowledged: its message is dropped if it is under way, and its place stays in use until a base passes it.
    pub fn acknowledged(self, k: u32) -> Acknowledged
        requires { (self.base ≤ self.taken) × (self.taken - self.base ≤ widest) }
        ensures { result ≡ acknowledged_by self k }
    {
        let d = distance(k, self.base);
        if self.taken - self.base <= d {
            return Acknowledged {
                side: self,
                named: false,
            };
        }
        let named = self.unacked.has(d);
        let mut next = self;
        next.unacked = self.unacked.without(d);
        Acknowledged { side: next, named }
    }

    // The side with nothing held any more; its counts stay.
    pub fn emptied(self) -> Sending
        ensures { result ≡ emptied_sending self }
    {
        let none = Places::none();
        Sending {
            unacked: none,
            ..self
        }
    }

    // The report: how many messages are held unacknowledged.
    pub fn held(self) -> u32
        ensures { result ≡ held_count self }
    {
        self.unacked.count()
    }

    // The held message of a rank, the oldest being 0, if one has it.
    pub fn ranked(self, window: u32, rank: u32) -> Option<Held>
        requires { SendingOk window self }
        ensures { result ≡ held_of window self rank }
    {
        let i = self.unacked.rank(rank)?;
        let at = place(self.origin, i, window);
        Some(Held {
            number: self.base + i,
            place: at,
            size: self.sizes[at as usize],
        })
    }

    // What BOOK asks of a sending side.
    pub fn fits(self, window: u32, largest: u16) -> bool
        requires { window ≤ widest }
        ensures { result ≡ sending_fits window largest self }
    {
        if Channel::CAP < self.taken {
            return false;
        }
        if self.taken < self.base {
            return false;
        }
        let n = self.taken - self.base;
        if window < n {
            return false;
        }
        if window <= self.origin {
            return false;
        }
        if self.unacked.empty() {
            return true;
        }
        if !self.unacked.within(n) {
            return false;
        }
        let sizes = self.sizes;
        sizes_fit(sizes, self.unacked, self.origin, window, largest)
    }
}
