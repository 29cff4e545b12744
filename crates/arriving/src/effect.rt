// What a base, an acknowledgement and a payload do to the line at which they arrive, and to its part of the store:
// RULES 4.3 to RULES 4.13. Each is a step of its own; which of them a packet makes, and in what order, is said in lib.rt.
ghost use Rattle.std.specs.Prelude.{◌≡◌, true, ◌≤◌, ◌<◌, length};
ghost use Rattle.packet.specs.Acks.{ack_list};
ghost use Rattle.line.specs.Figures.{receive_largest};
ghost use Rattle.line.specs.Part.{part_length};
ghost use Rattle.relay.specs.RelayTests.{reliable};
ghost use Rattle.arriving.specs.Effect.{Relaying, heard_line, acked_line, acked_all, owing_line, stored_line, stored_part};

use line::Line;
use packet::{Acks, Head};
use receiving::Arrival;
use store::Way;

// A base is heard on a channel; channel 0 has none.
pub fn base_heard(l: Line, channel: u8, base: u16) -> Line
    requires { Relaying l }
    ensures { result ≡ heard_line l channel base }
{
    if (channel == 1) | (channel == 2) {
        let side = l.sending(channel);
        let window = l.send_window(channel);
        let next = side.heard_base(window, base as u32);
        return l.with_sending(channel, next);
    }
    l
}

// An acknowledgement is heard: its number on its channel.
pub fn ack_heard(l: Line, word: u16) -> Line
    requires { Relaying l }
    ensures { result ≡ acked_line l word }
{
    let channel = (word >> 14) as u8;
    let number = (word & Head::NUMBER) as u32;
    let side = l.sending(channel);
    let heard = side.acknowledged(number);
    let next = heard.side;
    l.with_sending(channel, next)
}

// The acknowledgements are heard as listed.
pub fn acks_heard(l: Line, acks: Acks) -> Line
    requires { Relaying l × (acks.count ≤ 3) }
    ensures { result ≡ acked_all l (ack_list acks) }
{
    if acks.count == 0 {
        return l;
    }
    let one = ack_heard(l, acks.one);
    if acks.count == 1 {
        return one;
    }
    let two = ack_heard(one, acks.two);
    if acks.count == 2 {
        return two;
    }
    ack_heard(two, acks.three)
}

// The number of a message that came is owed.
pub fn number_owed(l: Line, channel: u8, number: u16) -> Line
    requires { Relaying l × (reliable channel ≡ true) × (number < 16384) }
    ensures { result ≡ owing_line l channel number }
{
    let word = owed::word(channel, number);
    let owed = l.owed.enter(word);
    Line { owed, ..l }
}

// A message comes: its octets go into the slot of its place if they are new there, and its number is owed in every case.
pub fn payload_stored(l: Line, part: &mut [u8], channel: u8, number: u16, message: &[u8]) -> Line
    requires { Relaying l × (part_length l ≤ length part.old) × (reliable channel ≡ true) × (number < 16384) × (length message.now ≤ receive_largest l) }
    ensures { (result ≡ stored_line l channel number (length message.now)) × (part.new ≡ stored_part l channel number message.now part.old) }
{
    let owing = number_owed(l, channel, number);
    let side = l.receiving(channel);
    let window = l.receive_window(channel);
    let arrival = side.arrival(window, number as u32);
    match arrival {
        Arrival::Stored(d) => {
            let place = side.place_of(window, d);
            let region = l.region(Way::Receiving, channel);
            region.put(part, place, message);
            let next = side.stored_at(window, d, message.len() as u16);
            owing.with_receiving(channel, next)
        }
        Arrival::There => owing,
        Arrival::Old => owing,
    }
}
