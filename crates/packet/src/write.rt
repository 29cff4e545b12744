// A relay packet written (RULES 2.1 to RULES 2.9, RULES 14.18). What the values are, and how they are read, stands in lib.rt.
ghost use Rattle.std.specs.Prelude.{◌≡◌, length, ℕ, ◌+◌, ◌*◌, ◌^◌, ◌<◌, List};
ghost use Rattle.std.proofs.lemmas.List.Edits.{sets};
ghost use Rattle.ground.specs.Refusal.{verdict};
ghost use Rattle.ground.specs.Answer.{Writes};
ghost use Rattle.field.specs.Layout.{packed, InWidth};
ghost use Rattle.packet.specs.Acks.{acks_blank};
ghost use Rattle.packet.specs.Write.{layout, fixed_fields, numbers_placed, fields_fit, write_tests, packet_octets};

use crate::{Acks, Head};
use ground::Refusal;

// Is each that is not there 0?
fn acks_blank(a: Acks) -> bool
    ensures { result ≡ acks_blank a }
{
    [a.one, a.two, a.three]
        .iter()
        .skip(a.count as usize)
        .all(|word| *word == 0)
}

// Are numbers that have no place 0? n is the payload's length.
#[tactic(auto, unfolding(crate::specs::Write::numbers_placed))]
fn numbers_placed(h: Head, n: usize) -> bool
    ensures { result ≡ numbers_placed h n }
{
    (h.channel != 0 || (h.number == 0 && h.base == 0)) && (n != 0 || h.number == 0)
}

#[tactic(auto, unfolding(crate::specs::Write::fields_fit))]
fn fields_fit(h: Head, a: Acks, n: usize) -> bool
    ensures { result ≡ fields_fit h a n }
{
    h.identifier < 128
        && h.kind < 128
        && h.number < 16384
        && h.base < 16384
        && a.count <= 3
        && acks_blank(a)
        && numbers_placed(h, n)
}

// n is the payload's length: nothing else of it is asked.
fn write_verdict(h: Head, a: Acks, n: usize, largest: usize, space: usize) -> Result<(), Refusal>
    requires { n < 2 ^ 63 }
    ensures { (payload : List ℕ) → length payload ≡ n → result ≡ verdict (write_tests h a payload largest space) }
{
    if !fields_fit(h, a, n) {
        return Err(Refusal::RANGE);
    }
    if h.channel >= 3 || !crate::acks_served(a) {
        return Err(Refusal::CHANNEL);
    }
    if !crate::size_fits(h.channel, n, largest) {
        return Err(Refusal::SIZE);
    }
    if space < 6 + 2 * (a.count as usize) + n {
        return Err(Refusal::ROOM);
    }
    Ok(())
}

// Stores the header and answers how many octets that is.
fn put_header(out: &mut [u8], h: Head, a: Acks) -> usize
    requires { InWidth (fixed_fields h a.count) }
    ensures { (result ≡ 6 + 2 * a.count) × (out.new ≡ sets out.old 0 (packed (layout h a))) }
{
    let words = [
        (h.identifier as u16) << 8 | h.kind as u16,
        (h.channel as u16) << 14 | h.number,
        (a.count as u16) << 14 | h.base,
        a.one,
        a.two,
        a.three,
    ];
    let n = 3 + a.count as usize;
    field::put_words(out, &words[..n]);
    2 * n
}

// Writes a packet: RANGE, CHANNEL, SIZE, ROOM. `largest` is the line's largest message.
pub fn write_packet(
    out: &mut [u8],
    h: Head,
    a: Acks,
    payload: &[u8],
    largest: usize,
) -> Result<usize, Refusal>
    ensures { Writes (write_tests h a payload.now largest (length out.old)) (packet_octets h a payload.now) out.old out.new result }
{
    write_verdict(h, a, payload.len(), largest, out.len())?;
    let n = put_header(out, h, a);
    field::put_octets(out, n, payload);
    Ok(n + payload.len())
}
