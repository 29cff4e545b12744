// The gateway: every call on a book of four lines. A caller keeps the book by value, lends a store of at least `Book::STORE` octets
// and an output where a call needs them, and gets back the book as the call leaves it, with the answer, or a refusal.
//
// Every call accepts every book, store, packet, message, setting and time, ends, and answers what docs/RULES.md says: a refusal
// by its name, with nothing changed, or its values. Nobody has to check anything first. CONNECT and BREAK bodies and slips are
// read and written by the crates `connect`, `breaks` and `slip`, which need no book.
//
// Every call that is given a book refuses BOOK first, then ROOM where it is lent a store that is too small, then RANGE where it
// names a line over 3. What it refuses after that is said beside it, in order. A fresh book, opening and closing stand in this
// file; the other calls are passed on from three crates, where each one's contract stands.
#![tactic(auto)]

ghost use Rattle.std.specs.Prelude.{ℕ, ◌≡◌, List};
ghost use Rattle.ground.specs.Answer.{write_says};
ghost use Rattle.book.specs.Book.{fresh_book};
ghost use Rattle.calls.specs.Call as call;
ghost use Rattle.calls.specs.Result.{result_of, does, slip_of};
ghost use Rattle.gateway.specs.Says.{open_says};

use book::Book;
use ground::Refusal;
use line::{Line, Settings};
use slip::Slip;

// The mode calls; their contracts stand in `signals`.
pub use signals::hear; // hears an indication: answers the local mode, and whether a P' notice is to be sent. NOLINE, CLOCK, RECOVERY, RANGE
pub use signals::ask; // requests a mode: answers the local mode. NOLINE, CLOCK, RECOVERY, RANGE, MODE
pub use signals::tick; // tells the time: answers nothing due, a try of the audio indication, or ended. NOLINE, CLOCK

// The calls in modem relay by which messages go out; their contracts stand in `outgoing`.
pub use outgoing::take; // takes a message for sending: answers its number. NOLINE, MODE, CHANNEL, SIZE, SPENT, FULL
pub use outgoing::send; // writes a held message, by its rank, as a packet: answers how many octets. NOLINE, MODE, CHANNEL, NOTHING, ROOM
pub use outgoing::empty; // writes a packet with acknowledgements and base news alone: answers how many octets. NOLINE, MODE, CHANNEL, ROOM
pub use outgoing::held; // reports how many messages of a channel are held unacknowledged. NOLINE, MODE, CHANNEL

// The calls in modem relay by which messages come in; their contracts stand in `incoming`.
pub use incoming::arrive; // a packet arrives: answers its line. SHORT, FORM, NOLINE, TYPE, MODE, SHORT, CHANNEL, SIZE
pub use incoming::hand_out; // hands out message R of a channel: answers how many octets. NOLINE, MODE, CHANNEL, SPENT, NOTHING, ROOM

// What an accepted call leaves: the book, and its answer. Where a call is refused the caller's book and all that is lent stay as they were.
pub use calls::After; // of hear a `mode::Heard`, of tick a `mode::Due`, of opening nothing, else a number

// A fresh book: four closed lines, and no identifier rests.
pub fn fresh() -> Book
    ensures { result ≡ fresh_book }
{
    Book::fresh()
}

// Opens a line. TAKEN for the line, RANGE for a setting, TAKEN for the identifier.
pub fn open(book: Book, line: u8, settings: Settings, time: u64) -> Result<After<()>, Refusal>
    ensures { (store out : List ℕ) → does open_says book result store out ≡ result_of (call.opening line settings time) book store out }
{
    calls::may_open(book, line, settings)?;
    let opened = Line::opened_with(settings, time);
    let book = book.with_line(line, opened);
    Ok(After { book, answer: () })
}

// The slip of a line: what was handed out on its channels, and whether recovery ended it.
fn slip_of(l: Line) -> Slip
    ensures { result ≡ slip_of l }
{
    let reason = if l.modes.ended() {
        Slip::ENDED
    } else {
        Slip::ASKED
    };
    Slip {
        identifier: l.identifier,
        kind: l.kind,
        count1: l.receiving.one.next,
        count2: l.receiving.two.next,
        reason,
    }
}

// Closes a line and writes its slip: answers how many octets, which is 12. NOLINE, ROOM for the output.
pub fn close(book: Book, line: u8, out: &mut [u8]) -> Result<After<usize>, Refusal>
    ensures { (store : List ℕ) → does write_says book result store out.new ≡ result_of (call.closing line) book store out.old }
{
    calls::may_close(book, line, out.len())?;
    let answer = slip::write(out, slip_of(book.line(line))).unwrap();
    let book = book.closed_at(line);
    Ok(After { book, answer })
}
