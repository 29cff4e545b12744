// What `spoil` sets in the sides of a line's channel: the counts S, h and R, and which messages are held or stored. A message lies at
// the place of its number less the window as often as that goes, as the library has it, which `origin` says of h and of R.
ghost use Rattle.std.specs.Prelude.{◌<◌, IfSome};

use crate::parse::{LinePart, ReceivingPart, SendingPart};
use line::Line;
use places::Places;
use receiving::Receiving;
use sending::Sending;
use store::Way;
use words::Arguments;

// A number less the window of a channel as often as that goes: 32 of channel 1, or else 8.
fn less(channel: u8, n: u32) -> u32
    ensures { result < 32 }
{
    if channel == 1 {
        return n & 31;
    }
    n & 7
}

// How far a number lies past the oldest, if that is 0 to 31.
fn offset(oldest: u32, number: u32) -> Option<u32>
    ensures { IfSome result (λ d. d < 32) }
{
    number.checked_sub(oldest).filter(|d| *d < 32)
}

// The oldest message that the part can name, h or R of the channel, if it names one.
fn oldest(line: &Line, part: LinePart, channel: u8) -> Option<u32> {
    match part {
        LinePart::Sending(SendingPart::Dropped | SendingPart::Held) => {
            Some(line.sending(channel).base)
        }
        LinePart::Receiving(ReceivingPart::Missing | ReceivingPart::Stored) => {
            Some(line.receiving(channel).next)
        }
        _ => None,
    }
}

// Can the message be said, if the words name one? Its number is near the oldest, and it has at most 255 octets.
pub fn in_reach(line: &Line, part: LinePart, a: Arguments) -> bool {
    match oldest(line, part, a.octet(0)) {
        Some(oldest) => offset(oldest, a.full(1)).is_some() && a.size < 256,
        None => true,
    }
}

// The messages with one more, or the same where it is out of reach.
fn with(places: Places, oldest: u32, number: u32) -> Places {
    match offset(oldest, number) {
        Some(d) => places.with(d),
        None => places,
    }
}

// The messages without one.
fn without(places: Places, oldest: u32, number: u32) -> Places {
    match offset(oldest, number) {
        Some(d) => places.without(d),
        None => places,
    }
}

// A size of at most 255, in 16 bits.
fn size_of(a: Arguments) -> u16 {
    a.size.min(255) as u16
}

// S is another; h is, and nothing is held; a message is not held; it is.
fn sent(side: Sending, part: SendingPart, a: Arguments) -> Sending {
    let number = a.full(1);
    let place = less(a.octet(0), number);
    let mut next = side;
    match part {
        SendingPart::Taken => next.taken = number,
        SendingPart::Base => {
            next.base = number;
            next.origin = place;
            next.unacked = Places::none();
        }
        SendingPart::Dropped => next.unacked = without(side.unacked, side.base, number),
        SendingPart::Held => {
            next.unacked = with(side.unacked, side.base, number);
            next.sizes[place as usize] = size_of(a);
        }
    }
    next
}

// R is another, and nothing is stored; a message is not stored; it is.
fn received(side: Receiving, part: ReceivingPart, a: Arguments) -> Receiving {
    let number = a.full(1);
    let place = less(a.octet(0), number);
    let mut next = side;
    match part {
        ReceivingPart::Next => {
            next.next = number;
            next.origin = place;
            next.stored = Places::none();
        }
        ReceivingPart::Missing => next.stored = without(side.stored, side.next, number),
        ReceivingPart::Stored => {
            next.stored = with(side.stored, side.next, number);
            next.sizes[place as usize] = size_of(a);
        }
    }
    next
}

// Sets one part of a channel's sending side.
pub fn set_sending(line: &mut Line, part: SendingPart, a: Arguments) {
    let channel = a.octet(0);
    *line = line.with_sending(channel, sent(line.sending(channel), part, a));
}

// Sets one part of a channel's receiving side.
pub fn set_receiving(line: &mut Line, part: ReceivingPart, a: Arguments) {
    let channel = a.octet(0);
    *line = line.with_receiving(channel, received(line.receiving(channel), part, a));
}

// The way of the message whose octets the part puts into its slot, if it does.
fn way(part: LinePart) -> Option<Way> {
    match part {
        LinePart::Sending(SendingPart::Held) => Some(Way::Sending),
        LinePart::Receiving(ReceivingPart::Stored) => Some(Way::Receiving),
        _ => None,
    }
}

// Where the slot of a message that is to be held or stored begins in the line's part of the store, if the part names one.
pub fn slot(line: &Line, part: LinePart, a: Arguments) -> Option<usize>
    ensures { IfSome result (λ at. at < 65536) }
{
    let channel = a.octet(0);
    let region = line.region(way(part)?, channel);
    Some(region.slot(less(channel, a.full(1))))
}
