// The verdicts of the calls by which messages go out: RULES 14.3, RULES 14.4, RULES 14.6, RULES 14.7. Of the store and of the
// output only the length counts. What an accepted call does stands beside this file, in lib.rt.
ghost use Rattle.std.specs.Prelude.{◌≡◌};
ghost use Rattle.ground.specs.Refusal.{verdict};
ghost use Rattle.ground.specs.Answer.{answered};
ghost use Rattle.writing.specs.Send.{ranked, held_in};
ghost use Rattle.book.specs.Book.{line_of};
ghost use Rattle.calls.specs.Order.{take_order, send_order, empty_order, report_order};

use book::Book;
use ground::Refusal;
use sending::Held;

// May a message of n octets be taken?
pub fn may_take(book: Book, store: usize, line: u8, channel: u8, n: usize) -> Result<(), Refusal>
    ensures { result ≡ verdict (take_order book store line channel n) }
{
    calls::store_line_verdict(book, store, line)?;
    relay::may_take(book.line(line), channel, n)
}

// The held message of a rank, if it may be written into `space` octets.
pub fn may_send(
    book: Book,
    store: usize,
    line: u8,
    channel: u8,
    rank: u8,
    space: usize,
) -> Result<Held, Refusal>
    ensures { result ≡ answered (send_order book store line channel rank space) (held_in (ranked (line_of book line) channel rank)) }
{
    calls::store_line_verdict(book, store, line)?;
    writing::may_send(book.line(line), channel, rank, space)
}

// May an empty packet be written into `space` octets?
pub fn may_write_empty(book: Book, line: u8, channel: u8, space: usize) -> Result<(), Refusal>
    ensures { result ≡ verdict (empty_order book line channel space) }
{
    calls::line_verdict(book, line)?;
    writing::may_write_empty(book.line(line), channel, space)
}

// May the held messages be reported?
pub fn may_report(book: Book, line: u8, channel: u8) -> Result<(), Refusal>
    ensures { result ≡ verdict (report_order book line channel) }
{
    calls::line_verdict(book, line)?;
    relay::channel_verdict(book.line(line), channel)
}
