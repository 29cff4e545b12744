// `spoil` sets one part of a book to a value, unchecked, so that each clause of BOOK can be tried. It is answered `ok`, or is no
// call where the value cannot be said. It writes the whole store, whatever is lent.
use crate::answer::Reply;
use crate::parse::{BookPart, LinePart};
use crate::{Seat, record, sides};
use channel::Channel;
use words::{Arguments, Fault};

impl Seat {
    // Sets a part of the book.
    pub fn spoil(&mut self, part: BookPart, a: Arguments) -> Reply {
        match part {
            BookPart::Rested => self.book.rested = a.octet(0),
            BookPart::Resting => {
                if let Some(identifier) = self.book.resting.get_mut(a.long(0) as usize) {
                    *identifier = a.octet(1);
                }
            }
        }
        Reply::Done
    }

    // Sets a part of line i.
    pub fn spoil_line(
        &mut self,
        i: u8,
        part: LinePart,
        a: Arguments,
        octets: &[u8],
    ) -> Result<Reply, Fault> {
        if 3 < i {
            return Err(Fault::OutOfReach);
        }
        let start = self.book.part_start(i);
        let line = &mut self.book.lines[usize::from(i)];
        if !sides::in_reach(line, part, a) {
            return Err(Fault::OutOfReach);
        }
        if let Some(slot) = sides::slot(line, part, a) {
            let message = a.octets(octets).iter().take(Channel::LARGEST as usize);
            for (place, octet) in self.store.iter_mut().skip(start).skip(slot).zip(message) {
                *place = *octet;
            }
        }
        record::set(line, part, a);
        Ok(Reply::Done)
    }
}
