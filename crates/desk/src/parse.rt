// What a line of the script asks for, read before any book is looked at: tables say which words each call asks for.
use book::Book;
use words::{Arguments, Entry, Fault, Kind};

// One of the two gateways.
#[derive(Clone, Copy, Debug, PartialEq, Eq)]
pub enum Which {
    A,
    B,
}

// A call at a gateway.
#[derive(Clone, Copy, Debug, PartialEq, Eq)]
pub enum Call {
    Fresh,
    Lend,
    Open,
    Hear,
    Ask,
    Tick,
    Held,
    Close,
    Empty,
    Take,
    Send,
    Arrive,
    HandOut,
}

// A part that `spoil` sets, of a book or of a line of it.
#[derive(Clone, Copy, Debug, PartialEq, Eq)]
enum Part {
    OfBook(BookPart),
    OfLine(LinePart),
}

// A part of a book besides its lines.
#[derive(Clone, Copy, Debug, PartialEq, Eq)]
pub enum BookPart {
    Rested,
    Resting,
}

// A part of a line's record.
#[derive(Clone, Copy, Debug, PartialEq, Eq)]
pub enum LinePart {
    Opened,
    Identifier,
    Kind,
    Owing,
    Owed,
    Vbd,
    Relay,
    Left,
    Local,
    Remote,
    Tries,
    Since,
    Tried,
    Last,
    Sending(SendingPart),
    Receiving(ReceivingPart),
}

// A part of a channel's sending side.
#[derive(Clone, Copy, Debug, PartialEq, Eq)]
pub enum SendingPart {
    Taken,
    Base,
    Dropped,
    Held,
}

// A part of a channel's receiving side.
#[derive(Clone, Copy, Debug, PartialEq, Eq)]
pub enum ReceivingPart {
    Next,
    Missing,
    Stored,
}

// A call that needs no book.
#[derive(Clone, Copy, Debug, PartialEq, Eq)]
pub enum BodyCall {
    ReadConnect,
    WriteConnect,
    ReadBreak,
    WriteBreak,
    ReadSlip,
}

// What a line asks for, with the words of it.
#[derive(Clone, Copy)]
pub enum Request {
    At(Which, Call, Arguments),
    SpoilBook(Which, BookPart, Arguments),
    // The number is the line's.
    SpoilLine(Which, u8, LinePart, Arguments),
    Body(BodyCall, Arguments),
}

// What a word may be: a flag, or a number of so many bits.
const FLAG: Kind = Kind::UpTo(1);

const BITS8: Kind = Kind::UpTo(0xff);

const BITS16: Kind = Kind::UpTo(0xffff);

const BITS32: Kind = Kind::UpTo(0xffff_ffff);

const BITS64: Kind = Kind::UpTo(u64::MAX);

// The calls at a gateway, besides `spoil`, whose words are those of the part that it sets.
static CALLS: [Entry<'static, Call>; 13] = [
    Entry(b"fresh", Call::Fresh, &[]),
    Entry(b"lend", Call::Lend, &[Kind::UpTo(Book::STORE as u64)]),
    Entry(
        b"open",
        Call::Open,
        &[BITS8, BITS8, BITS8, FLAG, FLAG, BITS64],
    ),
    Entry(b"hear", Call::Hear, &[BITS8, Kind::Mode, BITS64]),
    Entry(b"ask", Call::Ask, &[BITS8, Kind::Mode, BITS64]),
    Entry(b"tick", Call::Tick, &[BITS8, BITS64]),
    Entry(b"held", Call::Held, &[BITS8, BITS8]),
    Entry(b"close", Call::Close, &[BITS8, Kind::Space]),
    Entry(b"empty", Call::Empty, &[BITS8, BITS8, Kind::Space]),
    Entry(b"take", Call::Take, &[BITS8, BITS8, Kind::Octets]),
    Entry(b"send", Call::Send, &[BITS8, BITS8, BITS8, Kind::Space]),
    Entry(b"arrive", Call::Arrive, &[Kind::Octets]),
    Entry(b"out", Call::HandOut, &[BITS8, BITS8, Kind::Space]),
];

// The parts that `spoil` sets, those of the book first.
static PARTS: [Entry<'static, Part>; 23] = [
    Entry(b"rested", Part::OfBook(BookPart::Rested), &[BITS8]),
    Entry(
        b"resting",
        Part::OfBook(BookPart::Resting),
        &[Kind::UpTo(15), BITS8],
    ),
    Entry(b"opened", Part::OfLine(LinePart::Opened), &[BITS8]),
    Entry(b"id", Part::OfLine(LinePart::Identifier), &[BITS8]),
    Entry(b"type", Part::OfLine(LinePart::Kind), &[BITS8]),
    Entry(b"owing", Part::OfLine(LinePart::Owing), &[BITS8]),
    Entry(
        b"owed",
        Part::OfLine(LinePart::Owed),
        &[Kind::UpTo(63), Kind::UpTo(3), Kind::UpTo(16383)],
    ),
    Entry(b"vbd", Part::OfLine(LinePart::Vbd), &[BITS8]),
    Entry(b"relay", Part::OfLine(LinePart::Relay), &[BITS8]),
    Entry(b"left", Part::OfLine(LinePart::Left), &[BITS8]),
    Entry(
        b"local",
        Part::OfLine(LinePart::Local),
        &[Kind::ModeOrNumber],
    ),
    Entry(
        b"remote",
        Part::OfLine(LinePart::Remote),
        &[Kind::ModeOrNumber],
    ),
    Entry(b"try", Part::OfLine(LinePart::Tries), &[BITS8]),
    Entry(b"since", Part::OfLine(LinePart::Since), &[BITS64]),
    Entry(b"tried", Part::OfLine(LinePart::Tried), &[BITS64]),
    Entry(b"last", Part::OfLine(LinePart::Last), &[BITS64]),
    Entry(
        b"taken",
        Part::OfLine(LinePart::Sending(SendingPart::Taken)),
        &[Kind::Channel, BITS32],
    ),
    Entry(
        b"base",
        Part::OfLine(LinePart::Sending(SendingPart::Base)),
        &[Kind::Channel, BITS32],
    ),
    Entry(
        b"dropped",
        Part::OfLine(LinePart::Sending(SendingPart::Dropped)),
        &[Kind::Channel, BITS32],
    ),
    Entry(
        b"held",
        Part::OfLine(LinePart::Sending(SendingPart::Held)),
        &[Kind::Channel, BITS32, Kind::Octets],
    ),
    Entry(
        b"next",
        Part::OfLine(LinePart::Receiving(ReceivingPart::Next)),
        &[Kind::Channel, BITS32],
    ),
    Entry(
        b"missing",
        Part::OfLine(LinePart::Receiving(ReceivingPart::Missing)),
        &[Kind::Channel, BITS32],
    ),
    Entry(
        b"stored",
        Part::OfLine(LinePart::Receiving(ReceivingPart::Stored)),
        &[Kind::Channel, BITS32, Kind::Octets],
    ),
];

// What is done with a CONNECT, with a BREAK and with a slip.
static OF_CONNECT: [Entry<'static, BodyCall>; 2] = [
    Entry(b"read", BodyCall::ReadConnect, &[Kind::Octets]),
    Entry(
        b"write",
        BodyCall::WriteConnect,
        &[
            BITS8,
            BITS8,
            BITS8,
            BITS8,
            BITS16,
            BITS16,
            FLAG,
            FLAG,
            FLAG,
            FLAG,
            FLAG,
            FLAG,
            BITS16,
            BITS16,
            BITS8,
            BITS8,
            BITS16,
            BITS16,
            Kind::Space,
        ],
    ),
];

static OF_BREAK: [Entry<'static, BodyCall>; 2] = [
    Entry(b"read", BodyCall::ReadBreak, &[Kind::Octets]),
    Entry(
        b"write",
        BodyCall::WriteBreak,
        &[BITS8, BITS8, BITS8, Kind::Space],
    ),
];

static OF_SLIP: [Entry<'static, BodyCall>; 1] = [Entry(
    b"read",
    BodyCall::ReadSlip,
    &[Kind::Octets],
)];

// The line that a word numbers, 0 to 3.
fn line_of(word: &[u8]) -> Option<u8> {
    match words::read_number(word)? {
        line @ 0..=3 => Some(line as u8),
        _ => None,
    }
}

// What `spoil` asks for at a gateway: a part of a line behind the line's number, or a part of the book.
fn spoiling(which: Which, said: &[u8], octets: &mut [u8]) -> Result<Request, Fault> {
    let (first, behind) = words::split_word(said).ok_or(Fault::Unknown)?;
    let line = line_of(first);
    let named = if line.is_some() { behind } else { said };
    let (part, a) = words::call(named, &PARTS, octets)?;
    match (line, part) {
        (Some(line), Part::OfLine(part)) => Ok(Request::SpoilLine(which, line, part, a)),
        (None, Part::OfBook(part)) => Ok(Request::SpoilBook(which, part, a)),
        _ => Err(Fault::Unknown),
    }
}

// What the words behind a gateway ask for there.
fn at_gateway(which: Which, said: &[u8], octets: &mut [u8]) -> Result<Request, Fault> {
    let (name, behind) = words::split_word(said).ok_or(Fault::Unknown)?;
    if matches!(name, b"spoil") {
        return spoiling(which, behind, octets);
    }
    let (call, a) = words::call(said, &CALLS, octets)?;
    Ok(Request::At(which, call, a))
}

// What the words behind `connect`, `break` or `slip` ask for.
fn of_body(
    table: &[Entry<'_, BodyCall>],
    said: &[u8],
    octets: &mut [u8],
) -> Result<Request, Fault> {
    let (call, a) = words::call(said, table, octets)?;
    Ok(Request::Body(call, a))
}

// What a line of the script asks for.
pub fn read(line: &[u8], octets: &mut [u8]) -> Result<Request, Fault> {
    let (name, behind) = words::split_word(line).ok_or(Fault::Unknown)?;
    match name {
        b"A" => at_gateway(Which::A, behind, octets),
        b"B" => at_gateway(Which::B, behind, octets),
        b"connect" => of_body(&OF_CONNECT, behind, octets),
        b"break" => of_body(&OF_BREAK, behind, octets),
        b"slip" => of_body(&OF_SLIP, behind, octets),
        _ => Err(Fault::Unknown),
    }
}
