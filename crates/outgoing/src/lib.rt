// The relay calls on a book of four lines by which messages go out: a message taken, a held message or an empty packet written, the
// report of what is held (RULES section 5). They are calls of the library, and `gateway` passes them on.
#![tactic(auto)]

ghost use Rattle.std.specs.Prelude.{ℕ, ◌≡◌, List};
ghost use Rattle.ground.specs.Answer.{write_says};
ghost use Rattle.calls.specs.Call as call;
ghost use Rattle.calls.specs.Result.{result_with, result_of, does};
ghost use Rattle.outgoing.specs.Says.{take_says, held_says};

use book::Book;
use calls::After;
use channel::Channel;
use ground::Refusal;

mod verdicts; // verdicts.rt: what refuses them

// Takes a message of 1 to 132 octets for sending on channel 1 or 2. Answers its number, in the 14 bits of a packet.
// Refuses BOOK, ROOM for the store, RANGE for the line, NOLINE, MODE, CHANNEL, SIZE, SPENT, FULL.
pub fn take(
    book: Book,
    store: &mut [u8],
    line: u8,
    channel: u8,
    message: &[u8],
) -> Result<After<u16>, Refusal>
    ensures { (out : List ℕ) → does take_says book result store.new out ≡ result_of (call.taking line channel message.now) book store.old out }
{
    verdicts::may_take(book, store.len(), line, channel, message.len())?;
    let l = book.line(line);
    let answer = (l.sending(channel).taken & Channel::NUMBER) as u16;
    let start = book.part_start(line);
    let end = start + l.part_length();
    let taken = relay::take(l, &mut store[start..end], channel, message);
    let book = book.with_line(line, taken);
    Ok(After { book, answer })
}

// Writes a held message, by its rank among the unacknowledged ones of its channel, as a packet. Answers how many octets it has.
// Refuses BOOK, ROOM for the store, RANGE for the line, NOLINE, MODE, CHANNEL, NOTHING, ROOM for the output.
pub fn send(
    book: Book,
    store: &[u8],
    line: u8,
    channel: u8,
    rank: u8,
    out: &mut [u8],
) -> Result<After<usize>, Refusal>
    ensures { does write_says book result store.now out.new ≡ result_of (call.sending line channel rank) book store.now out.old }
{
    let h = verdicts::may_send(book, store.len(), line, channel, rank, out.len())?;
    let l = book.line(line);
    let at = book.part_start(line);
    let end = at + l.part_length();
    let sent = writing::send(l, &store[at..end], channel, h, out);
    let book = book.with_line(line, sent.line);
    Ok(After {
        book,
        answer: sent.size,
    })
}

// Writes an empty packet on channel 0, 1 or 2: acknowledgements, and base news on 1 and 2. Answers how many octets it has.
// Refuses BOOK, RANGE for the line, NOLINE, MODE, CHANNEL, ROOM for the output.
pub fn empty(book: Book, line: u8, channel: u8, out: &mut [u8]) -> Result<After<usize>, Refusal>
    ensures { (store : List ℕ) → does write_says book result store out.new ≡ result_of (call.empty line channel) book store out.old }
{
    verdicts::may_write_empty(book, line, channel, out.len())?;
    let sent = writing::write_empty(book.line(line), channel, out);
    let book = book.with_line(line, sent.line);
    Ok(After {
        book,
        answer: sent.size,
    })
}

// Reports how many messages of a channel are held unacknowledged. Refuses BOOK, RANGE for the line, NOLINE, MODE, CHANNEL.
pub fn held(book: Book, line: u8, channel: u8) -> Result<u32, Refusal>
    ensures { (store out : List ℕ) → result_with (held_says result) book store out ≡ result_of (call.report line channel) book store out }
{
    verdicts::may_report(book, line, channel)?;
    Ok(relay::held(book.line(line), channel))
}
