// A relay packet, after V.150.1 Annex B (RULES 2.1 to RULES 2.8): what its octets say. One is written in write.rt.
// Lines, windows and modes are not known here: NOLINE, TYPE and MODE stand between reading the head and reading the list (RULES 14.2).
#![tactic(auto)]

ghost use Rattle.std.specs.Prelude.{◌≡◌, ◌+◌, ◌*◌, ◌<◌};
ghost use Rattle.ground.specs.Refusal.{verdict};
ghost use Rattle.ground.specs.Answer.{Gives};
ghost use Rattle.packet.specs.Acks.{acks_served};
ghost use Rattle.packet.specs.Read.{head_tests, list_tests, head_says, acks_says, head_at, acks_at, header_length, channel_at, number_at, count_at, base_at, ack_at, size_fits, payload_fits, form_plain};

use ground::Refusal;

mod write; // write.rt: a packet written

pub use write::write_packet;

// What a packet says before its list of acknowledgements. What is not looked at is 0.
#[derive(Clone, Copy)]
pub struct Head {
    // 0 to 127: it finds the line.
    pub identifier: u8,
    // The payload type, 0 to 127.
    pub kind: u8,
    // 0 carries acknowledgements only; 1 and 2 carry messages; 3 is not served.
    pub channel: u8,
    // The payload's number, 14 bits; 0 on channel 0 and without payload.
    pub number: u16,
    // The writer's next message to hand out on the channel, 14 bits; 0 on channel 0.
    pub base: u16,
}

// The acknowledgements, at most three. Each is a word as it is sent: its channel (2 bits) and its number (14). They are fields and no array,
// because `ack_list`, `acks_served` and `acks_blank` of specs/ name them.
// A word at or past the count is 0.
#[derive(Clone, Copy)]
pub struct Acks {
    pub count: u8,
    pub one: u16,
    pub two: u16,
    pub three: u16,
}

impl Head {
    // The 14 bits of a word that are a number; the two above them are a channel, or how many acknowledgements there are.
    pub const NUMBER: u16 = 0x3fff;
}

impl Acks {
    // How many octets a header with these has, and so where the payload begins: six, and two for each.
    pub fn header(self) -> usize
        ensures { result ≡ 6 + 2 * self.count }
    {
        6 + 2 * (self.count as usize)
    }
}

// How many acknowledgements the packet says that it has.
fn count_at(s: &[u8]) -> u8
    ensures { result ≡ count_at s.now }
{
    (field::word_at(s, 4) >> 14) as u8
}

// Where the payload begins: after six octets and two for each acknowledgement.
pub fn header_length(s: &[u8]) -> usize
    ensures { result ≡ header_length s.now }
{
    6 + 2 * (count_at(s) as usize)
}

fn channel_at(s: &[u8]) -> u8
    ensures { result ≡ channel_at s.now }
{
    (field::word_at(s, 2) >> 14) as u8
}

#[tactic(auto, unfolding(crate::specs::Read::number_at))]
fn number_at(s: &[u8]) -> u16
    ensures { result ≡ number_at s.now }
{
    if channel_at(s) == 0 || s.len() <= header_length(s) {
        return 0;
    }
    field::word_at(s, 2) & Head::NUMBER
}

#[tactic(auto, unfolding(crate::specs::Read::base_at))]
fn base_at(s: &[u8]) -> u16
    ensures { result ≡ base_at s.now }
{
    if channel_at(s) == 0 {
        return 0;
    }
    field::word_at(s, 4) & Head::NUMBER
}

fn head_at(s: &[u8]) -> Head
    ensures { result ≡ head_at s.now }
{
    let w = field::word_at(s, 0);
    let channel = channel_at(s);
    let number = number_at(s);
    let base = base_at(s);
    Head {
        identifier: (w >> 8 & 0x7f) as u8,
        kind: (w & 0x7f) as u8,
        channel,
        number,
        base,
    }
}

// Are the extension bit and the reserved bit 0?
fn form_plain(s: &[u8]) -> bool
    ensures { result ≡ form_plain s.now }
{
    let w = field::word_at(s, 0);
    w >> 15 == 0 && w >> 7 & 1 == 0
}

fn head_verdict(s: &[u8]) -> Result<(), Refusal>
    ensures { result ≡ verdict (head_tests s.now) }
{
    if s.len() < 6 {
        return Err(Refusal::SHORT);
    }
    if !form_plain(s) {
        return Err(Refusal::FORM);
    }
    Ok(())
}

// What the first six octets say: SHORT, FORM.
pub fn read_head(s: &[u8]) -> Result<Head, Refusal>
    ensures { Gives head_says (head_tests s.now) (head_at s.now) result }
{
    head_verdict(s)?;
    Ok(head_at(s))
}

// Acknowledgement k of the list, from 0; 0 where there is none.
#[tactic(auto, unfolding(crate::specs::Read::ack_at))]
fn ack_at(s: &[u8], k: usize) -> u16
    requires { k < 3 }
    ensures { result ≡ ack_at s.now k }
{
    if k < count_at(s) as usize {
        field::word_at(s, 6 + 2 * k)
    } else {
        0
    }
}

#[tactic(auto, unfolding(crate::specs::Read::acks_at))]
fn acks_at(s: &[u8]) -> Acks
    ensures { result ≡ acks_at s.now }
{
    let count = count_at(s);
    let one = ack_at(s, 0);
    let two = ack_at(s, 1);
    let three = ack_at(s, 2);
    Acks {
        count,
        one,
        two,
        three,
    }
}

// Does each acknowledgement that is there name a channel that is served?
pub fn acks_served(a: Acks) -> bool
    ensures { result ≡ acks_served a }
{
    [a.one, a.two, a.three]
        .iter()
        .take(a.count as usize)
        .all(|word| field::served(*word))
}

fn list_verdict(s: &[u8]) -> Result<(), Refusal>
    ensures { result ≡ verdict (list_tests s.now) }
{
    if s.len() < header_length(s) {
        return Err(Refusal::SHORT);
    }
    if channel_at(s) >= 3 || !acks_served(acks_at(s)) {
        return Err(Refusal::CHANNEL);
    }
    Ok(())
}

// What the list after the six octets says, the acknowledgements: SHORT, CHANNEL.
pub fn read_acks(s: &[u8]) -> Result<Acks, Refusal>
    ensures { Gives acks_says (list_tests s.now) (acks_at s.now) result }
{
    list_verdict(s)?;
    Ok(acks_at(s))
}

// Are n octets of payload no more than that, and none on channel 0?
#[tactic(auto, unfolding(crate::specs::Read::size_fits))]
pub fn size_fits(channel: u8, n: usize, largest: usize) -> bool
    ensures { result ≡ size_fits channel n largest }
{
    if channel == 0 { n == 0 } else { n <= largest }
}

// Is the packet's payload no larger than that, and none on channel 0? (SIZE where it is not.)
pub fn payload_fits(s: &[u8], largest: usize) -> bool
    ensures { result ≡ payload_fits s.now largest }
{
    size_fits(
        channel_at(s),
        s.len().saturating_sub(header_length(s)),
        largest,
    )
}
