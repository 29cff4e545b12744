// What taking, handing out and the report refuse (RULES 14.3, RULES 14.5, RULES 14.7), and what they do to one line and to its
// part of the store (RULES 5.1, RULES 5.8, RULES 5.10). Each call is a verdict, worked out first, and an effect, made only where the verdict
// lets it pass. The verdicts of taking and handing out ask that the line meets what BOOK asks; `calls` tests the book and the store's length before that.
#![tactic(auto)]

ghost use Rattle.std.specs.Prelude.{◌≡◌, true, ◌≤◌, ◌<◌, ◌++◌, length, drop, Ok};
ghost use Rattle.ground.specs.Refusal.{verdict};
ghost use Rattle.line.specs.Fit.{line_fits};
ghost use Rattle.relay.specs.RelayTests.{relay_line_tests, relay_channel_tests};
ghost use Rattle.sending.specs.Sending.{held_count};
ghost use Rattle.receiving.specs.Receiving.{next_size};
ghost use Rattle.line.specs.Line.{sending_of, receiving_of};
ghost use Rattle.line.specs.Part.{part_length};
ghost use Rattle.relay.specs.HandOut.{hand_call_tests, handed_octets, handed_line};
ghost use Rattle.relay.specs.Take.{take_call_tests, took_line, took_part};

use ground::Refusal;
use line::Line;
use mode::Modes;
use store::Way;

// What every call on a line's channels asks first: NOLINE, MODE.
pub fn relay_verdict(l: Line) -> Result<(), Refusal>
    ensures { result ≡ verdict (relay_line_tests l) }
{
    if l.opened != Line::OPEN {
        return Err(Refusal::NOLINE);
    }
    if l.modes.local != Modes::MODEM {
        return Err(Refusal::MODE);
    }
    Ok(())
}

// And what a call on a reliable channel asks: NOLINE, MODE, CHANNEL.
pub fn channel_verdict(l: Line, channel: u8) -> Result<(), Refusal>
    ensures { result ≡ verdict (relay_channel_tests l channel) }
{
    relay_verdict(l)?;
    if !((channel == 1) | (channel == 2)) {
        return Err(Refusal::CHANNEL);
    }
    Ok(())
}

// May a message of n octets be taken? NOLINE, MODE, CHANNEL, SIZE, SPENT, FULL.
pub fn may_take(l: Line, channel: u8, n: usize) -> Result<(), Refusal>
    requires { line_fits l ≡ true }
    ensures { result ≡ verdict (take_call_tests l channel n) }
{
    channel_verdict(l, channel)?;
    let largest = l.send_largest() as usize;
    if !((0 < n) & (n <= largest)) {
        return Err(Refusal::SIZE);
    }
    l.sending(channel).may_take(l.send_window(channel))
}

// Takes a message: its octets go into the slot of its place, and the line has one message more.
pub fn take(l: Line, part: &mut [u8], channel: u8, message: &[u8]) -> Line
    requires { (line_fits l ≡ true) × (part_length l ≤ length part.old) × (verdict (take_call_tests l channel (length message.now)) ≡ Ok tt) }
    ensures { (result ≡ took_line l channel (length message.now)) × (part.new ≡ took_part l channel message.now part.old) }
{
    let side = l.sending(channel);
    let window = l.send_window(channel);
    let place = side.next_place(window);
    let region = l.region(Way::Sending, channel);
    region.put(part, place, message);
    let next = side.took(window, message.len() as u16);
    l.with_sending(channel, next)
}

// May message R be handed out into `space` octets? NOLINE, MODE, CHANNEL, SPENT, NOTHING, ROOM.
pub fn may_hand_out(l: Line, channel: u8, space: usize) -> Result<(), Refusal>
    requires { line_fits l ≡ true }
    ensures { result ≡ verdict (hand_call_tests l channel space) }
{
    channel_verdict(l, channel)?;
    let side = l.receiving(channel);
    side.may_hand_out()?;
    if space < side.next_size() as usize {
        return Err(Refusal::ROOM);
    }
    Ok(())
}

// Hands out message R: its octets go to the front of the output, and R moves on.
pub fn hand_out(l: Line, part: &[u8], channel: u8, out: &mut [u8]) -> Line
    requires { (line_fits l ≡ true) × (part_length l ≤ length part.now) × (verdict (hand_call_tests l channel (length out.old)) ≡ Ok tt) }
    ensures { (result ≡ handed_line l channel) × (out.new ≡ handed_octets l channel part.now ++ drop (next_size (receiving_of l channel)) out.old) }
{
    let side = l.receiving(channel);
    let window = l.receive_window(channel);
    let region = l.region(Way::Receiving, channel);
    let size = side.next_size() as usize;
    region.copy_out(part, side.origin, size, out);
    l.with_receiving(channel, side.handed_out(window))
}

// The report: how many messages of the channel are held unacknowledged.
pub fn held(l: Line, channel: u8) -> u32
    ensures { result ≡ held_count (sending_of l channel) }
{
    l.sending(channel).held()
}
