// Carries messages from one gateway to another, and says how many came as they were taken. It is there to be measured: the second
// implementation has a program of the same work, and `bench/run` runs both.
//
// `carry COUNT OCTETS WHAT`, where WHAT is `carry`, or `check`, the same with one refused call more before each call; or `bare`,
// the program's own work without a call; or `still` or `full`, COUNT refused calls on a book that holds nothing, or whose windows
// and owed lists are full.
#![tactic(auto)]

use book::Book;
use gateway::After;
use ground::Refusal;
use line::Settings;
use mode::Modes;
use std::io;
use std::rt::Env;

// What a run is asked to do.
#[derive(Clone, Copy, PartialEq, Eq)]
enum Work {
    Carry,
    Check,
    Bare,
    Still,
    Full,
}

// What is counted: messages that came as they were taken, their octets, and calls that were refused RANGE.
#[derive(Clone, Copy)]
struct Counts {
    carried: u64,
    octets: u64,
    refused: u64,
}

// How many octets each message has, and whether each call is preceded by a refused one.
#[derive(Clone, Copy)]
struct Run {
    size: usize,
    check: bool,
}

// The books of two gateways.
#[derive(Clone, Copy)]
struct Books {
    a: Book,
    b: Book,
}

// The book that a call leaves: a refused one leaves it as it was.
fn left<T: Drop>(book: Book, gave: Result<After<T>, Refusal>) -> Book {
    match gave {
        Ok(after) => after.book,
        Err(_) => book,
    }
}

// How many octets a call has written.
fn written(gave: Result<After<usize>, Refusal>) -> usize {
    match gave {
        Ok(after) => after.answer,
        Err(_) => 0,
    }
}

// A book with one line more, in modem relay.
fn opened(book: Book, line: u8) -> Book {
    let settings = Settings {
        identifier: line,
        kind: 98,
        vbd: true,
        relay: true,
    };
    let open = left(book, gateway::open(book, line, settings, 0));
    left(open, gateway::ask(open, line, Modes::MODEM, 0))
}

// A book of four lines in modem relay.
fn ready() -> Book {
    let mut book = gateway::fresh();
    for line in 0..4u8 {
        book = opened(book, line);
    }
    book
}

impl Counts {
    // Makes a call that is refused right after BOOK, because there is no line 9, and counts it.
    fn refuse(&mut self, book: Book) {
        if let Err(Refusal::RANGE) = gateway::held(book, 9, 1) {
            self.refused = self.refused.saturating_add(1);
        }
    }

    // The same before another call, where the run asks for it.
    fn check(&mut self, book: Book, run: Run) {
        if run.check {
            self.refuse(book);
        }
    }

    // Counts a message of that size where it was handed out as it was taken.
    fn judge(&mut self, out: &[u8], given: usize, number: u64, size: usize) {
        if out.len() < size {
            return;
        }
        let same = alike(&out[..size], number);
        if same & (given == size) {
            self.carried = self.carried.saturating_add(1);
            self.octets = self.octets.saturating_add(size as u64);
        }
    }
}

// An octet of the message of a number.
fn octet(number: u64, i: usize) -> u8 {
    ((number ^ i as u64) % 256) as u8
}

// The message of a number.
fn fill(message: &mut [u8], number: u64) {
    for (i, place) in message.iter_mut().enumerate() {
        *place = octet(number, i);
    }
}

// Are the octets those of the message of a number? All are looked at, whatever they are.
fn alike(out: &[u8], number: u64) -> bool {
    let mut differ = 0;
    for (i, found) in out.iter().enumerate() {
        differ |= *found ^ octet(number, i);
    }
    differ == 0
}

// Takes the message of a number.
fn take(book: Book, store: &mut [u8; Book::STORE], number: u64, size: usize) -> Book {
    if 132 < size {
        return book;
    }
    let mut message = [0u8; 132];
    fill(&mut message, number);
    left(book, gateway::take(book, store, 0, 1, &message[..size]))
}

// A packet of n octets arrives, as it was written.
fn arrive(book: Book, store: &mut [u8; Book::STORE], packet: &[u8], n: usize) -> Book {
    if packet.len() < n {
        return book;
    }
    left(book, gateway::arrive(book, store, &packet[..n]))
}

// Hands out a message, and counts it where it is that of the number.
fn hand_out(
    book: Book,
    store: &[u8; Book::STORE],
    number: u64,
    size: usize,
    counts: &mut Counts,
) -> Book {
    let mut out = [0u8; 132];
    let gave = gateway::hand_out(book, store, 0, 1, &mut out);
    counts.judge(&out, written(gave), number, size);
    left(book, gave)
}

// A book, and the packet that a call wrote of it.
#[derive(Clone, Copy)]
struct Sent {
    book: Book,
    size: usize,
}

// What a call that writes a packet leaves.
fn sent_by(book: Book, gave: Result<After<usize>, Refusal>) -> Sent {
    Sent {
        book: left(book, gave),
        size: written(gave),
    }
}

// At A a message is taken, and written as a packet.
fn depart(
    mut book: Book,
    run: Run,
    number: u64,
    store: &mut [u8; Book::STORE],
    packet: &mut [u8],
    counts: &mut Counts,
) -> Sent {
    counts.check(book, run);
    book = take(book, store, number, run.size);
    counts.check(book, run);
    sent_by(book, gateway::send(book, store, 0, 1, 0, packet))
}

// At B the packet arrives, the message is handed out, and an empty packet is written that acknowledges it.
fn land(
    mut book: Book,
    run: Run,
    number: u64,
    store: &mut [u8; Book::STORE],
    packet: &mut [u8],
    sent: usize,
    counts: &mut Counts,
) -> Sent {
    counts.check(book, run);
    book = arrive(book, store, packet, sent);
    counts.check(book, run);
    book = hand_out(book, store, number, run.size, counts);
    counts.check(book, run);
    sent_by(book, gateway::empty(book, 0, 1, packet))
}

// At A that packet arrives.
fn hear(
    book: Book,
    run: Run,
    store: &mut [u8; Book::STORE],
    packet: &[u8],
    sent: usize,
    counts: &mut Counts,
) -> Book {
    counts.check(book, run);
    arrive(book, store, packet, sent)
}

// Carries the message of a number from A to B.
fn turn(
    books: Books,
    run: Run,
    number: u64,
    a: &mut [u8; Book::STORE],
    b: &mut [u8; Book::STORE],
    counts: &mut Counts,
) -> Books {
    let mut packet = [0u8; 144];
    let sent = depart(books.a, run, number, a, &mut packet, counts);
    let heard = land(books.b, run, number, b, &mut packet, sent.size, counts);
    let near = hear(sent.book, run, a, &packet, heard.size, counts);
    Books {
        a: near,
        b: heard.book,
    }
}

// Carries that many messages.
fn carry(
    count: u64,
    run: Run,
    a: &mut [u8; Book::STORE],
    b: &mut [u8; Book::STORE],
    counts: &mut Counts,
) {
    let book = ready();
    let mut books = Books { a: book, b: book };
    for carried in 0..count {
        books = turn(books, run, count - carried, a, b, counts);
    }
}

// The program's own work for the message of a number: it is made, and judged as if it had come.
fn without_calls(number: u64, size: usize, counts: &mut Counts) {
    let mut message = [0u8; 132];
    fill(&mut message, number);
    counts.judge(&message, size, number, size);
}

// Does the program's own work for that many messages.
fn bare(count: u64, size: usize, counts: &mut Counts) {
    for done in 0..count {
        without_calls(count - done, size, counts);
    }
}

// A message of a line's channel is taken, and one of that number arrives. `marked` is the channel in a packet's third octet.
fn filled(
    book: Book,
    store: &mut [u8; Book::STORE],
    line: u8,
    channel: u8,
    marked: u8,
    number: u8,
) -> Book {
    let packet = [line, 98, marked, number, 0, 0, 1, 2, 3];
    let took = left(book, gateway::take(book, store, line, channel, b"abc"));
    left(took, gateway::arrive(took, store, &packet))
}

// The same on both channels of a line, where channel 2 has a place for the number.
fn both_filled(book: Book, store: &mut [u8; Book::STORE], line: u8, number: u8) -> Book {
    let first = filled(book, store, line, 1, 0x40, number);
    if 7 < number {
        return first;
    }
    filled(first, store, line, 2, 0x80, number)
}

// A book whose windows are all full, and that owes 64 numbers on each line: 32 and 24 old ones of channel 1, and 8 of channel 2.
fn full(mut book: Book, store: &mut [u8; Book::STORE]) -> Book {
    for number in 0..56u8 {
        for i in 0..4u8 {
            book = both_filled(book, store, 3 - i, number);
        }
    }
    book
}

// Makes that many calls that are refused right after BOOK, on a book that holds nothing, or is full.
fn refusals(count: u64, work: Work, store: &mut [u8; Book::STORE], counts: &mut Counts) {
    let mut book = ready();
    if work == Work::Full {
        book = full(book, store);
    }
    for _ in 0..count {
        counts.refuse(book);
    }
}

// The number that an argument says, or else that one.
fn argument(rt: &impl Env, i: usize, other: u64) -> u64 {
    let mut word = [0u8; 20];
    let n = rt.arg(i, &mut word).unwrap_or(0);
    words::read_number(&word[0..n]).unwrap_or(other)
}

// What the third argument asks for: to carry, where it is none of these words.
fn asked(rt: &impl Env) -> Work {
    let mut word = [0u8; 8];
    let n = rt.arg(3, &mut word).unwrap_or(0);
    match words::split_word(&word[0..n]) {
        Some((b"check", _)) => Work::Check,
        Some((b"bare", _)) => Work::Bare,
        Some((b"still", _)) => Work::Still,
        Some((b"full", _)) => Work::Full,
        _ => Work::Carry,
    }
}

// Says what was counted, of so many messages of so many octets.
fn tell(rt: &impl Print, counts: Counts, count: u64, size: usize) -> io::Result<()> {
    println!(rt;
        "carried {} of {count} messages of {size} octets, {} octets, {} calls refused",
        counts.carried, counts.octets, counts.refused
    )
}

fn main(rt: HostRuntime) -> io::Result<()> {
    let mut a = [0u8; Book::STORE];
    let mut b = [0u8; Book::STORE];
    let mut counts = Counts {
        carried: 0,
        octets: 0,
        refused: 0,
    };
    let count = argument(&rt, 1, 1000);
    let size = argument(&rt, 2, 132).min(132) as usize;
    let work = asked(&rt);
    let check = work == Work::Check;
    match work {
        Work::Still | Work::Full => refusals(count, work, &mut a, &mut counts),
        Work::Bare => bare(count, size, &mut counts),
        Work::Carry | Work::Check => carry(count, Run { size, check }, &mut a, &mut b, &mut counts),
    }
    tell(&rt, counts, count, size)
}
