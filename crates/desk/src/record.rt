// What `spoil` sets in a line's record.
use crate::parse::LinePart;
use crate::sides;
use line::Line;
use owed::Owed;
use words::Arguments;

// Sets the entry of a list at a place.
fn set_entry(list: &mut Owed, a: Arguments) {
    if let Some(number) = list.numbers.get_mut(a.long(0) as usize) {
        *number = owed::word(a.octet(1) & 3, a.short(2) & 16383);
    }
}

// Sets one part of the record.
pub fn set(line: &mut Line, part: LinePart, a: Arguments) {
    match part {
        LinePart::Opened => line.opened = a.octet(0),
        LinePart::Identifier => line.identifier = a.octet(0),
        LinePart::Kind => line.kind = a.octet(0),
        LinePart::Owing => line.owed.count = a.octet(0),
        LinePart::Owed => set_entry(&mut line.owed, a),
        LinePart::Vbd => line.modes.vbd = a.octet(0),
        LinePart::Relay => line.modes.relay = a.octet(0),
        LinePart::Left => line.modes.left = a.octet(0),
        LinePart::Local => line.modes.local = a.octet(0),
        LinePart::Remote => line.modes.remote = a.octet(0),
        LinePart::Tries => line.modes.tries = a.octet(0),
        LinePart::Since => line.modes.since = a.long(0),
        LinePart::Tried => line.modes.tried = a.long(0),
        LinePart::Last => line.modes.last = a.long(0),
        LinePart::Sending(part) => sides::set_sending(line, part, a),
        LinePart::Receiving(part) => sides::set_receiving(line, part, a),
    }
}
