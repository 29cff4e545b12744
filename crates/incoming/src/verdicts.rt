// The verdicts of the calls by which messages come in: RULES 14.2, RULES 14.5. A packet's identifier names its line. Of
// the store and of the output only the length counts. What an accepted call does stands beside this file, in lib.rt.
ghost use Rattle.std.specs.Prelude.{◌≡◌};
ghost use Rattle.ground.specs.Refusal.{verdict};
ghost use Rattle.ground.specs.Answer.{answered};
ghost use Rattle.calls.specs.Order.{hand_out_order, arrive_order, packet_line, owner_line};
ghost use Rattle.packet.specs.Read.{head_at};
ghost use Rattle.arriving.specs.Arrive.{arrive_tests};
ghost use Rattle.calls.specs.Stages.{arrival_tests};
ghost use Rattle.incoming.specs.Reading.{arriving_at};

use crate::Arriving;
use book::Book;
use ground::Refusal;
use line::Line;
use packet::Head;

// May message R be handed out into `space` octets?
pub fn may_hand_out(
    book: Book,
    store: usize,
    line: u8,
    channel: u8,
    space: usize,
) -> Result<(), Refusal>
    ensures { result ≡ verdict (hand_out_order book store line channel space) }
{
    calls::store_line_verdict(book, store, line)?;
    relay::may_hand_out(book.line(line), channel, space)
}

// The packet, if it may arrive at a line, which has that number: TYPE, MODE, SHORT for the list, CHANNEL, SIZE.
fn may_arrive_at(l: Line, line: u8, head: Head, s: &[u8]) -> Result<Arriving, Refusal>
    requires { head ≡ head_at s.now }
    ensures { result ≡ answered (arrive_tests l s.now) (arriving_at line s.now) }
{
    let acks = arriving::may_arrive(l, head, s)?;
    Ok(Arriving { line, head, acks })
}

// The packet, if it may arrive at the open line that has its identifier: SHORT for 6 octets, FORM, NOLINE, and what that line asks.
fn may_arrive_by(book: Book, s: &[u8]) -> Result<Arriving, Refusal>
    ensures { result ≡ answered (arrival_tests book s.now) (arriving_at (owner_line (packet_line book s.now)) s.now) }
{
    let head = packet::read_head(s)?;
    let line = book.owner_of(head.identifier).ok_or(Refusal::NOLINE)?;
    may_arrive_at(book.line(line), line, head, s)
}

// The packet, if it may arrive, and the line that it is for.
pub fn may_arrive(book: Book, store: usize, s: &[u8]) -> Result<Arriving, Refusal>
    ensures { result ≡ answered (arrive_order book store s.now) (arriving_at (owner_line (packet_line book s.now)) s.now) }
{
    calls::store_verdict(book, store)?;
    may_arrive_by(book, s)
}
