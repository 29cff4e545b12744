// The relay calls on a book of four lines by which messages come in: a packet that arrives, a message handed out
// (RULES 4.1, RULES 4.2, RULES 5.8). They are calls of the library, and `gateway` passes them on.
#![tactic(auto)]

ghost use Rattle.std.specs.Prelude.{ℕ, ◌≡◌, List};
ghost use Rattle.ground.specs.Answer.{write_says};
ghost use Rattle.calls.specs.Call as call;
ghost use Rattle.calls.specs.Result.{result_of, does};
ghost use Rattle.incoming.specs.Says.{arrive_says};

use book::Book;
use calls::After;
use ground::Refusal;
use packet::{Acks, Head};

mod verdicts; // verdicts.rt: what refuses them

// A packet that may arrive: the line that it is for, and what was read of it on the way.
#[derive(Clone, Copy)]
pub struct Arriving {
    pub line: u8,
    pub head: Head,
    pub acks: Acks,
}

// A packet arrives. Its identifier says which line it is for, and the answer says which that is.
// Refuses BOOK, ROOM for the store, SHORT for 6 octets, FORM, NOLINE, TYPE, MODE, SHORT for the list, CHANNEL, SIZE.
pub fn arrive(book: Book, store: &mut [u8], packet: &[u8]) -> Result<After<u8>, Refusal>
    ensures { (out : List ℕ) → does arrive_says book result store.new out ≡ result_of (call.arrival packet.now) book store.old out }
{
    let a = verdicts::may_arrive(book, store.len(), packet)?;
    let l = book.line(a.line);
    let start = book.part_start(a.line);
    let end = start + l.part_length();
    let arrived = arriving::arrive(l, &mut store[start..end], a.head, a.acks, packet);
    let book = book.with_line(a.line, arrived);
    Ok(After {
        book,
        answer: a.line,
    })
}

// Hands out message R of a channel into the output. Answers how many octets it has.
// Refuses BOOK, ROOM for the store, RANGE for the line, NOLINE, MODE, CHANNEL, SPENT, NOTHING, ROOM for the output.
pub fn hand_out(
    book: Book,
    store: &[u8],
    line: u8,
    channel: u8,
    out: &mut [u8],
) -> Result<After<usize>, Refusal>
    ensures { does write_says book result store.now out.new ≡ result_of (call.hand_out line channel) book store.now out.old }
{
    verdicts::may_hand_out(book, store.len(), line, channel, out.len())?;
    let l = book.line(line);
    let answer = l.receiving(channel).next_size() as usize;
    let start = book.part_start(line);
    let end = start + l.part_length();
    let handed = relay::hand_out(l, &store[start..end], channel, out);
    let book = book.with_line(line, handed);
    Ok(After { book, answer })
}
