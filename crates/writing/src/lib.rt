// What a line writes: what all its packets have in common (RULES 5.5), and those without a message (RULES 5.6, RULES 14.6). The call is
// a verdict, worked out first, and an effect, made only where the verdict lets it pass. Every packet carries acknowledgements that the
// line owes, at most three, and they leave its list (RULES 5.7). Packets with a message stand in held.rt.
#![tactic(auto)]

ghost use Rattle.std.specs.Prelude.{◌≡◌, true, ◌≤◌, ◌++◌, length, drop, Ok};
ghost use Rattle.ground.specs.Refusal.{verdict};
ghost use Rattle.line.specs.Figures.{send_largest};
ghost use Rattle.line.specs.Fit.{line_fits};
ghost use Rattle.packet.specs.Write.{write_tests, packet_octets};
ghost use Rattle.writing.specs.Write.{acks_for, wrote_line, base_for, head_for, header_length_for, empty_packet, empty_tests};

use channel::Channel;
use ground::Refusal;
use line::Line;
use packet::{Acks, Head};

mod held; // held.rt: a held message written

pub use held::{may_send, send};

// What a call that writes a packet leaves: the line, and how many octets were written.
#[derive(Clone, Copy)]
pub struct WriteStep {
    pub line: Line,
    pub size: usize,
}

// The acknowledgements that the next packet carries.
pub fn acks_for(l: Line) -> Acks
    ensures { result ≡ acks_for l }
{
    l.owed.first_three()
}

// The line once they have left its list.
pub fn wrote_line(l: Line) -> Line
    requires { l.owed.count ≤ 64 }
    ensures { result ≡ wrote_line l }
{
    let owed = l.owed.without_three();
    Line { owed, ..l }
}

// The base that a packet on the channel carries, in its 14 bits.
fn base_for(l: Line, channel: u8) -> u16
    ensures { result ≡ base_for l channel }
{
    if channel == 0 {
        return 0;
    }
    (l.receiving(channel).next & Channel::NUMBER) as u16
}

// The head of a packet that the line writes.
pub fn head_for(l: Line, channel: u8, number: u16) -> Head
    ensures { result ≡ head_for l channel number }
{
    let base = base_for(l, channel);
    Head {
        identifier: l.identifier,
        kind: l.kind,
        channel,
        number,
        base,
    }
}

// The length of a header that carries what the line owes.
pub fn header_length(l: Line) -> usize
    ensures { result ≡ header_length_for l }
{
    acks_for(l).header()
}

// May an empty packet be written into `space` octets? NOLINE, MODE, CHANNEL, ROOM.
pub fn may_write_empty(l: Line, channel: u8, space: usize) -> Result<(), Refusal>
    ensures { result ≡ verdict (empty_tests l channel space) }
{
    relay::relay_verdict(l)?;
    if 2 < channel {
        return Err(Refusal::CHANNEL);
    }
    if space < header_length(l) {
        return Err(Refusal::ROOM);
    }
    Ok(())
}

// Writes a packet with that head, the acknowledgements that the line owes, and a payload. Its tests have passed.
fn write(l: Line, head: Head, payload: &[u8], out: &mut [u8]) -> WriteStep
    requires { (l.owed.count ≤ 64) × (verdict (write_tests head (acks_for l) payload.now (send_largest l) (length out.old)) ≡ Ok tt) }
    ensures { (result.line ≡ wrote_line l) × (result.size ≡ length (packet_octets head (acks_for l) payload.now)) × (out.new ≡ packet_octets head (acks_for l) payload.now ++ drop (length (packet_octets head (acks_for l) payload.now)) out.old) }
{
    let acks = acks_for(l);
    let largest = l.send_largest() as usize;
    let size = packet::write_packet(out, head, acks, payload, largest).unwrap();
    let line = wrote_line(l);
    WriteStep { line, size }
}

// Writes an empty packet.
pub fn write_empty(l: Line, channel: u8, out: &mut [u8]) -> WriteStep
    requires { (line_fits l ≡ true) × (verdict (empty_tests l channel (length out.old)) ≡ Ok tt) }
    ensures { (result.line ≡ wrote_line l) × (result.size ≡ length (empty_packet l channel)) × (out.new ≡ empty_packet l channel ++ drop (length (empty_packet l channel)) out.old) }
{
    let head = head_for(l, channel, 0);
    write(l, head, &[], out)
}
