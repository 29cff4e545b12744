// One line's record, by value: its settings, its modes, two sending and two receiving sides, and what it owes.
// Here is what opening (RULES 7.3), closing (RULES 7.5) and a change of mode (RULES 9.12, RULES 9.14) make of it, what BOOK asks of
// it, the figures that its calls go by (RULES 3.2, RULES 3.4), and where the slots lie in its part of the store (RULES 6.4). Relay calls are in `relay`, `writing` and `arriving`, books in `book`, octets in `store`, the order of refusals in `calls`.
#![tactic(auto)]

ghost use Rattle.std.specs.Prelude.{◌≡◌};
ghost use Rattle.sending.specs.Sending.{sending_fits};
ghost use Rattle.receiving.specs.Receiving.{receiving_fits};
ghost use Rattle.line.specs.Sides.{side_of, with_side};
ghost use Rattle.line.specs.Line.{closed_line, opened_line, sending_of, with_sending, receiving_of, with_receiving};
ghost use Rattle.line.specs.Fit.{settings_fit, settings_of, idle, line_fits};
ghost use Rattle.line.specs.Mode.{stepped_to};
ghost use Rattle.line.specs.Figures.{send_window, receive_window, send_largest, receive_largest};
ghost use Rattle.line.specs.Part.{part_length, region_of};

use channel::Channel;
use mode::{Channels, Modes};
use owed::Owed;
use receiving::Receiving;
use sending::Sending;
use store::{Region, Way};

// What opening names, besides the line and the time.
#[derive(Clone, Copy)]
pub struct Settings {
    // 0 to 127.
    pub identifier: u8,
    // The payload type, 96 to 127.
    pub kind: u8,
    // VBD is offered.
    pub vbd: bool,
    // Modem relay is offered.
    pub relay: bool,
}

// What a line has for each of its two channels.
#[repr(C)]
#[derive(Clone, Copy)]
pub struct Sides<T> {
    // Channel 1's.
    pub one: T,
    // Channel 2's.
    pub two: T,
}

impl<T: Copy> Sides<T> {
    // That of channel 1, or else of 2.
    fn of(self, channel: u8) -> T
        ensures { result ≡ side_of self channel }
    {
        if channel == 1 { self.one } else { self.two }
    }

    // Both, with another one of a channel.
    fn with(self, channel: u8, side: T) -> Sides<T>
        ensures { result ≡ with_side self channel side }
    {
        if channel == 1 {
            Sides { one: side, ..self }
        } else {
            Sides { two: side, ..self }
        }
    }
}

#[repr(C)]
#[derive(Clone, Copy)]
pub struct Line {
    // OPEN or CLOSED. Of a closed line nothing else is read.
    pub opened: u8,
    // 0 to 127; no other open line and no resting one has it.
    pub identifier: u8,
    // The payload type, 96 to 127.
    pub kind: u8,
    pub modes: Modes,
    // What is sent and what is received on each channel.
    pub sending: Sides<Sending>,
    pub receiving: Sides<Receiving>,
    // The acknowledgements owed, for both channels.
    pub owed: Owed,
}

// Are identifier and payload type within their spans?
pub fn settings_fit(s: Settings) -> bool
    ensures { result ≡ settings_fit s }
{
    s.identifier <= 127 && (96..=127).contains(&s.kind)
}

impl Line {
    // What the flag of a line may be: a number, because any memory may be handed in as a book.
    pub const CLOSED: u8 = 0;

    pub const OPEN: u8 = 1;

    // A closed line, as in a fresh book.
    pub fn closed() -> Line
        ensures { result ≡ closed_line }
    {
        let modes = Modes::closed();
        let sending = Sending::fresh();
        let receiving = Receiving::fresh();
        let owed = Owed::fresh();
        Line {
            opened: Line::CLOSED,
            identifier: 0,
            kind: 0,
            modes,
            sending: Sides {
                one: sending,
                two: sending,
            },
            receiving: Sides {
                one: receiving,
                two: receiving,
            },
            owed,
        }
    }

    // A line just opened.
    pub fn opened_with(settings: Settings, time: u64) -> Line
        ensures { result ≡ opened_line settings time }
    {
        let modes = Modes::opened(settings.vbd, settings.relay, time);
        let closed = Line::closed();
        Line {
            opened: Line::OPEN,
            identifier: settings.identifier,
            kind: settings.kind,
            modes,
            ..closed
        }
    }

    // The sending side of channel 1, or else of 2.
    pub fn sending(self, channel: u8) -> Sending
        ensures { result ≡ sending_of self channel }
    {
        self.sending.of(channel)
    }

    // The line with another sending side.
    pub fn with_sending(self, channel: u8, side: Sending) -> Line
        ensures { result ≡ with_sending self channel side }
    {
        Line {
            sending: self.sending.with(channel, side),
            ..self
        }
    }

    // The receiving side of channel 1, or else of 2.
    pub fn receiving(self, channel: u8) -> Receiving
        ensures { result ≡ receiving_of self channel }
    {
        self.receiving.of(channel)
    }

    // The line with another receiving side.
    pub fn with_receiving(self, channel: u8, side: Receiving) -> Line
        ensures { result ≡ with_receiving self channel side }
    {
        Line {
            receiving: self.receiving.with(channel, side),
            ..self
        }
    }
}

// The figures of a line, which every call on it goes by. All lines have the same.
impl Line {
    // How many octets the slots for sending have: 40 of 132.
    const SENT: usize = 5280;

    // How many octets a line's part of the store has: those, and as many for receiving.
    pub const PART: usize = 10560;

    // How many messages of a channel may be under way: those that it sends. The two ways have a function each, though the bodies are one,
    // because the promises speak of each.
    pub fn send_window(self, channel: u8) -> u32
        ensures { result ≡ send_window self channel }
    {
        Channel::of(channel).window
    }

    // And those that it receives.
    pub fn receive_window(self, channel: u8) -> u32
        ensures { result ≡ receive_window self channel }
    {
        Channel::of(channel).window
    }

    // How many octets a message has at the most that the line sends.
    pub fn send_largest(self) -> u16
        ensures { result ≡ send_largest self }
    {
        Channel::LARGEST
    }

    // And one that it receives.
    pub fn receive_largest(self) -> u16
        ensures { result ≡ receive_largest self }
    {
        Channel::LARGEST
    }

    // How many octets the line's part of the store has.
    pub fn part_length(self) -> usize
        ensures { result ≡ part_length self }
    {
        Line::PART
    }

    // Where the slots of a way and a channel lie in that part.
    pub fn region(self, way: Way, channel: u8) -> Region
        ensures { result ≡ region_of self way channel }
    {
        match way {
            Way::Sending => {
                let slots = self.send_window(1);
                Region::from(0, slots, self.send_largest() as usize, channel)
            }
            Way::Receiving => {
                let slots = self.receive_window(1);
                Region::from(Line::SENT, slots, self.receive_largest() as usize, channel)
            }
        }
    }
}

impl Line {
    // What opening named, as the record of an open line has it.
    pub fn settings(self) -> Settings
        ensures { result ≡ settings_of self }
    {
        Settings {
            identifier: self.identifier,
            kind: self.kind,
            vbd: self.modes.vbd == Modes::YES,
            relay: self.modes.relay == Modes::YES,
        }
    }

    // Nothing is held, stored or owed.
    fn idle(self) -> bool
        ensures { result ≡ idle self }
    {
        let a = self.sending.one.unacked.empty();
        let b = self.sending.two.unacked.empty();
        let c = self.receiving.one.stored.empty();
        let d = self.receiving.two.stored.empty();
        a & b & c & d & (self.owed.count == 0)
    }

    // What BOOK asks of the sending side of a channel.
    fn sending_fits(self, channel: u8) -> bool
        ensures { result ≡ sending_fits (send_window self channel) (send_largest self) (sending_of self channel) }
    {
        let window = self.send_window(channel);
        self.sending(channel).fits(window, self.send_largest())
    }

    // And of the receiving side.
    fn receiving_fits(self, channel: u8) -> bool
        ensures { result ≡ receiving_fits (receive_window self channel) (receive_largest self) (receiving_of self channel) }
    {
        let window = self.receive_window(channel);
        self.receiving(channel).fits(window, self.receive_largest())
    }

    // What BOOK asks of a line: of a closed one, only the flag that says so.
    pub fn fits(self) -> bool
        ensures { result ≡ line_fits self }
    {
        if self.opened != Line::OPEN {
            return self.opened == Line::CLOSED;
        }
        if !settings_fit(self.settings()) {
            return false;
        }
        if !self.modes.fits() {
            return false;
        }
        if !self.sending_fits(1) {
            return false;
        }
        if !self.sending_fits(2) {
            return false;
        }
        if !self.receiving_fits(1) {
            return false;
        }
        if !self.receiving_fits(2) {
            return false;
        }
        if !self.owed.fits() {
            return false;
        }
        if self.modes.local == Modes::MODEM {
            return true;
        }
        self.idle()
    }

    // The line once its modes are these, and its channels stay, start fresh or are emptied.
    pub fn stepped(self, modes: Modes, channels: Channels) -> Line
        ensures { result ≡ stepped_to self modes channels }
    {
        match channels {
            Channels::Stay => Line { modes, ..self },
            Channels::Fresh => {
                let sending = Sending::fresh();
                let receiving = Receiving::fresh();
                let owed = Owed::fresh();
                Line {
                    modes,
                    sending: Sides {
                        one: sending,
                        two: sending,
                    },
                    receiving: Sides {
                        one: receiving,
                        two: receiving,
                    },
                    owed,
                    ..self
                }
            }
            Channels::Emptied => {
                let sending = Sides {
                    one: self.sending.one.emptied(),
                    two: self.sending.two.emptied(),
                };
                let receiving = Sides {
                    one: self.receiving.one.emptied(),
                    two: self.receiving.two.emptied(),
                };
                let owed = Owed::fresh();
                Line {
                    modes,
                    sending,
                    receiving,
                    owed,
                    ..self
                }
            }
        }
    }
}
