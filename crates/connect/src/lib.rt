// The CONNECT body: V.150.1 clause 15.4.5, Table 25, as RULES section 11 serves it. Read and written.
// A body has 8 octets; 14 where the compression is V.42 bis, 18 where it is V.44.
#![tactic(auto)]

ghost use Rattle.std.specs.Prelude.{◌≡◌, true, ◌<◌, length};
ghost use Rattle.ground.specs.Refusal.{verdict};
ghost use Rattle.ground.specs.Answer.{Gives, Writes};
ghost use Rattle.connect.specs.Read.{compression_at, connect_at, way_at, read_tests, answer_of};
ghost use Rattle.connect.specs.Spans.{size_of, nothing, bis_way, rich_way, sizes_fit, numbers_fit};
ghost use Rattle.connect.specs.Write.{flag_fields, write_tests, connect_octets};
ghost use Rattle.field.specs.Layout.{join};
ghost use Rattle.std.proofs.lemmas.List.Edits.{sets};

use ground::Refusal;

// What is told of one direction of the link. What has no place in the body is 0.
#[derive(Clone, Copy)]
pub struct Way {
    // Data signalling rate, in bit/s.
    pub rate: u16,
    // Codewords in the dictionary: V.42 bis 512 to 65,535, V.44 256 to 65,535.
    pub dictionary: u16,
    // Longest string: V.42 bis 6 to 250, V.44 32 to 255.
    pub string: u8,
    // Size of the history: V.44 only, 512 to 65,535.
    pub history: u16,
}

// What a body says. Kinds are numbers and no enums, because a caller may hand in any, and reserved ones are read, or refused RESERVED or RANGE.
#[derive(Clone, Copy)]
pub struct Connect {
    // 0 to 30; 31 to 63 are read and never written.
    pub modulation: u8,
    // Of the compression: 0 none, 1 transmit, 2 receive, 3 both. Not compared with it.
    pub direction: u8,
    // 0 none, 1 V.42 bis, 2 V.44, 3 MNP5.
    pub compression: u8,
    // 0 none or V.14, 1 LAPM, 2 Annex A of V.42; 3 to 15 are read and never written.
    pub correction: u8,
    pub transmit: Way,
    pub receive: Way,
    pub dlci: bool,
    // The data types on offer, bits 49 to 53: octets without format, I_RAW-BIT, I_FRAME, I_CHAR-STAT, I_CHAR-DYN.
    pub octet: bool,
    pub rawbit: bool,
    pub frame: bool,
    pub charstat: bool,
    pub chardyn: bool,
}

fn compression_at(s: &[u8]) -> u8
    ensures { result ≡ compression_at s.now }
{
    (field::word_at(s, 0) >> 4 & 15) as u8
}

// One direction's numbers: 0 is transmit, and 1, receive, stands after it field by field, so it is a number that is added to a place.
fn way_at(s: &[u8], way: usize) -> Way
    requires { way < 2 }
    ensures { result ≡ way_at s.now way }
{
    let rate = field::word_at(s, 2 + 2 * way);
    let dictionary = field::word_at(s, 8 + 2 * way);
    let string = field::octet_at(s, 12 + way);
    let history = field::word_at(s, 14 + 2 * way);
    Way {
        rate,
        dictionary,
        string,
        history,
    }
}

fn connect_at(s: &[u8]) -> Connect
    ensures { result ≡ connect_at s.now }
{
    let w = field::word_at(s, 0);
    let transmit = way_at(s, 0);
    let receive = way_at(s, 1);
    let flags = field::word_at(s, 6);
    Connect {
        modulation: (w >> 10) as u8,
        direction: (w >> 8 & 3) as u8,
        compression: (w >> 4 & 15) as u8,
        correction: (w & 15) as u8,
        transmit,
        receive,
        dlci: flags >> 15 == 1,
        octet: flags >> 14 & 1 == 1,
        rawbit: flags >> 13 & 1 == 1,
        frame: flags >> 12 & 1 == 1,
        charstat: flags >> 11 & 1 == 1,
        chardyn: flags >> 10 & 1 == 1,
    }
}

// How many octets a body has.
#[tactic(auto, unfolding(crate::specs::Spans::size_of))]
fn size_of(compression: u8) -> usize
    ensures { result ≡ size_of compression }
{
    match compression {
        1 => 14,
        2 => 18,
        _ => 8,
    }
}

// Tests of numbers are joined by `&` here: each is an instruction or two, and with a branch behind each of them a body took half as long again.
fn is_plain(w: Way) -> bool
    ensures { result ≡ nothing w }
{
    (w.dictionary == 0) & (w.string == 0) & (w.history == 0)
}

fn is_v42bis(w: Way) -> bool
    ensures { result ≡ bis_way w }
{
    (512..=65535).contains(&w.dictionary) & (6..=250).contains(&w.string) & (w.history == 0)
}

fn is_v44(w: Way) -> bool
    ensures { result ≡ rich_way w }
{
    (256..=65535).contains(&w.dictionary)
        & (32..=255).contains(&w.string)
        & (512..=65535).contains(&w.history)
}

// Are dictionaries, strings and histories within the spans of the compression?
#[tactic(auto, unfolding(crate::specs::Spans::sizes_fit))]
fn sizes_fit(c: Connect) -> bool
    ensures { result ≡ sizes_fit c }
{
    match c.compression {
        1 => is_v42bis(c.transmit) & is_plain(c.receive),
        2 => is_v44(c.transmit) & is_v44(c.receive),
        _ => is_plain(c.transmit) & is_plain(c.receive),
    }
}

fn read_verdict(s: &[u8]) -> Result<(), Refusal>
    ensures { result ≡ verdict (read_tests s.now) }
{
    if s.len() < 8 {
        return Err(Refusal::LENGTH);
    }
    let compression = compression_at(s);
    if 4 <= compression {
        return Err(Refusal::RESERVED);
    }
    if s.len() != size_of(compression) {
        return Err(Refusal::LENGTH);
    }
    if !sizes_fit(connect_at(s)) {
        return Err(Refusal::RANGE);
    }
    Ok(())
}

// A body read: LENGTH below 8, RESERVED, LENGTH, RANGE.
pub fn read(s: &[u8]) -> Result<Connect, Refusal>
    ensures { Gives answer_of (read_tests s.now) (connect_at s.now) result }
{
    read_verdict(s)?;
    Ok(connect_at(s))
}

// Bits 48 to 63: six flags, and ten bits of 0.
fn flags_of(c: Connect) -> u16
    ensures { result ≡ join 0 (flag_fields c) }
{
    let a = c.dlci as u16;
    let b = c.octet as u16;
    let d = c.rawbit as u16;
    let e = c.frame as u16;
    let f = c.charstat as u16;
    let g = c.chardyn as u16;
    (((((a << 1 | b) << 1 | d) << 1 | e) << 1 | f) << 1 | g) << 10
}

// Stores the body, word by word, and answers how many octets that is.
fn put(out: &mut [u8], c: Connect) -> usize
    requires { (numbers_fit c ≡ true) × (sizes_fit c ≡ true) }
    ensures { (result ≡ size_of c.compression) × (out.new ≡ sets out.old 0 (connect_octets c)) }
{
    let modulation = c.modulation as u16;
    let direction = c.direction as u16;
    let compression = c.compression as u16;
    let correction = c.correction as u16;
    let flags = flags_of(c);
    let words = [
        ((modulation << 2 | direction) << 4 | compression) << 4 | correction,
        c.transmit.rate,
        c.receive.rate,
        flags,
        c.transmit.dictionary,
        c.receive.dictionary,
        (c.transmit.string as u16) << 8 | c.receive.string as u16,
        c.transmit.history,
        c.receive.history,
    ];
    let n = size_of(c.compression);
    field::put_words(out, &words[..n >> 1]);
    n
}

#[tactic(auto, unfolding(crate::specs::Spans::numbers_fit))]
fn numbers_fit(c: Connect) -> bool
    ensures { result ≡ numbers_fit c }
{
    (c.modulation < 31) & (c.direction < 4) & (c.compression < 4) & (c.correction < 3)
}

fn write_verdict(c: Connect, space: usize) -> Result<(), Refusal>
    ensures { result ≡ verdict (write_tests c space) }
{
    let compression = c.compression;
    if (4..=15).contains(&compression) {
        return Err(Refusal::RESERVED);
    }
    if !numbers_fit(c) || !sizes_fit(c) {
        return Err(Refusal::RANGE);
    }
    if space < size_of(compression) {
        return Err(Refusal::ROOM);
    }
    Ok(())
}

// A body written: RESERVED, RANGE, ROOM.
pub fn write(out: &mut [u8], c: Connect) -> Result<usize, Refusal>
    ensures { Writes (write_tests c (length out.old)) (connect_octets c) out.old out.new result }
{
    write_verdict(c, out.len())?;
    Ok(put(out, c))
}
