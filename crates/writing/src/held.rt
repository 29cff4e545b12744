// A held message written as a packet (RULES 5.4, RULES 5.5, RULES 14.4). The call is a verdict, worked out first, and an effect, made
// only where the verdict lets it pass. What the packet has in common with every other that a line writes is made in lib.rt.
ghost use Rattle.std.specs.Prelude.{◌≡◌, true, ◌≤◌, ◌++◌, length, drop};
ghost use Rattle.line.specs.Fit.{line_fits};
ghost use Rattle.line.specs.Part.{part_length};
ghost use Rattle.writing.specs.Write.{wrote_line};
ghost use Rattle.writing.specs.Send.{send_verdict, held_packet, Sendable};

use crate::WriteStep;
use channel::Channel;
use ground::Refusal;
use line::Line;
use sending::Held;
use store::Way;

// The held message of a rank, if it may be written into `space` octets: NOLINE, MODE, CHANNEL, NOTHING, ROOM.
pub fn may_send(l: Line, channel: u8, rank: u8, space: usize) -> Result<Held, Refusal>
    requires { line_fits l ≡ true }
    ensures { result ≡ send_verdict l channel rank space }
{
    relay::channel_verdict(l, channel)?;
    let side = l.sending(channel);
    let window = l.send_window(channel);
    let h = side.ranked(window, rank as u32).ok_or(Refusal::NOTHING)?;
    if space < crate::header_length(l) + (h.size as usize) {
        return Err(Refusal::ROOM);
    }
    Ok(h)
}

// Writes a held message.
pub fn send(l: Line, part: &[u8], channel: u8, h: Held, out: &mut [u8]) -> WriteStep
    requires { (line_fits l ≡ true) × (part_length l ≤ length part.now) × Sendable l channel (length out.old) h }
    ensures { (result.line ≡ wrote_line l) × (result.size ≡ length (held_packet l channel h part.now)) × (out.new ≡ held_packet l channel h part.now ++ drop (length (held_packet l channel h part.now)) out.old) }
{
    let region = l.region(Way::Sending, channel);
    let at = region.slot(h.place);
    let end = at + h.size as usize;
    let head = crate::head_for(l, channel, (h.number & Channel::NUMBER) as u16);
    crate::write(l, head, &part[at..end], out)
}
