// What an arriving packet asks of its line (RULES 14.2), and what it does to it and to its part of the store (RULES 4.2). A verdict is
// worked out first, and an effect is made only where it lets the packet pass. The packet's first tests are in `packet`, the search for
// the line by its identifier is in `book`.
#![tactic(auto)]

ghost use Rattle.std.specs.Prelude.{◌≡◌, true, ◌≤◌, length, Ok};
ghost use Rattle.ground.specs.Refusal.{verdict};
ghost use Rattle.ground.specs.Answer.{answered};
ghost use Rattle.packet.specs.Read.{head_at, acks_at};
ghost use Rattle.line.specs.Fit.{line_fits};
ghost use Rattle.line.specs.Line.{is_open};
ghost use Rattle.line.specs.Part.{part_length};
ghost use Rattle.arriving.specs.Arrive.{arrive_tests, arrived_line, arrived_part};

use ground::Refusal;
use line::Line;
use mode::Modes;
use packet::{Acks, Head};

mod effect; // effect.rt: what a base, an acknowledgement and a payload do

// May the packet take effect on its line, and what does it acknowledge? TYPE, MODE, SHORT for the list, CHANNEL, SIZE.
pub fn may_arrive(l: Line, head: Head, s: &[u8]) -> Result<Acks, Refusal>
    requires { head ≡ head_at s.now }
    ensures { result ≡ answered (arrive_tests l s.now) (acks_at s.now) }
{
    if head.kind != l.kind {
        return Err(Refusal::TYPE);
    }
    if l.modes.local != Modes::MODEM {
        return Err(Refusal::MODE);
    }
    let acks = packet::read_acks(s)?;
    let largest = l.receive_largest() as usize;
    if !packet::size_fits(head.channel, s.len() - acks.header(), largest) {
        return Err(Refusal::SIZE);
    }
    Ok(acks)
}

// The packet takes effect: base, acknowledgements as listed, payload. Its tests have passed, and read its head and its list.
pub fn arrive(l: Line, part: &mut [u8], head: Head, acks: Acks, s: &[u8]) -> Line
    requires { (line_fits l ≡ true) × (is_open l ≡ true) × (part_length l ≤ length part.old) × (verdict (arrive_tests l s.now) ≡ Ok tt) × (head ≡ head_at s.now) × (acks ≡ acks_at s.now) }
    ensures { (result ≡ arrived_line l s.now) × (part.new ≡ arrived_part l s.now part.old) }
{
    let heard = effect::base_heard(l, head.channel, head.base);
    let news = effect::acks_heard(heard, acks);
    let at = acks.header();
    if s.len() <= at {
        return news;
    }
    effect::payload_stored(news, part, head.channel, head.number, &s[at..])
}
