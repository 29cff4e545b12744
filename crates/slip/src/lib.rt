// The slip of a closed line: RULES section 8. Form 1 has 12 octets, read and written.
#![tactic(auto)]

ghost use Rattle.std.specs.Prelude.{◌≡◌, length, true};
ghost use Rattle.std.proofs.lemmas.List.Edits.{sets};
ghost use Rattle.ground.specs.Refusal.{verdict};
ghost use Rattle.ground.specs.Answer.{Gives, Writes};
ghost use Rattle.slip.specs.Slip.{slip_at, slip_fits, form_fits, slip_octets, answer_of, read_tests, write_tests};

use ground::Refusal;

#[derive(Clone, Copy)]
pub struct Slip {
    // 0 to 127.
    pub identifier: u8,
    // The payload type, 96 to 127.
    pub kind: u8,
    // Messages handed out on channel 1, at most 16,777,215.
    pub count1: u32,
    // And on channel 2.
    pub count2: u32,
    // Why the line was closed: ASKED or ENDED. A caller may hand in any number, and others are RANGE, so it is no enum.
    pub reason: u8,
}

impl Slip {
    // How many octets a slip has.
    pub const LENGTH: usize = 12;

    // Closing was asked for.
    pub const ASKED: u8 = 0;

    // Recovery had ended the line.
    pub const ENDED: u8 = 1;
}

fn slip_at(s: &[u8]) -> Slip
    ensures { result ≡ slip_at s.now }
{
    let a = field::long_at(s, 0);
    let b = field::long_at(s, 4);
    let c = field::long_at(s, 8);
    Slip {
        identifier: (a >> 21 & 0x7f) as u8,
        kind: (a >> 14 & 0x7f) as u8,
        count1: (a & 0x3fff) << 10 | b >> 22,
        count2: (b & 0x3fffff) << 2 | c >> 30,
        reason: (c >> 22 & 0xff) as u8,
    }
}

// Is the form 1, and are the last 22 bits 0?
fn form_fits(s: &[u8]) -> bool
    ensures { result ≡ form_fits s.now }
{
    let a = field::long_at(s, 0);
    let c = field::long_at(s, 8);
    a >> 28 == 1 && c & 0x3fffff == 0
}

#[tactic(auto, unfolding(crate::specs::Slip::slip_fits))]
fn slip_fits(v: Slip) -> bool
    ensures { result ≡ slip_fits v }
{
    v.identifier < 128
        && (96..128).contains(&v.kind)
        && v.count1 < 16777216
        && v.count2 < 16777216
        && v.reason <= 1
}

fn read_verdict(s: &[u8]) -> Result<(), Refusal>
    ensures { result ≡ verdict (read_tests s.now) }
{
    if s.len() != Slip::LENGTH {
        return Err(Refusal::LENGTH);
    }
    if !form_fits(s) {
        return Err(Refusal::FORM);
    }
    if !slip_fits(slip_at(s)) {
        return Err(Refusal::RANGE);
    }
    Ok(())
}

// A slip read: LENGTH, FORM, RANGE.
pub fn read(s: &[u8]) -> Result<Slip, Refusal>
    ensures { Gives answer_of (read_tests s.now) (slip_at s.now) result }
{
    read_verdict(s)?;
    Ok(slip_at(s))
}

fn write_verdict(v: Slip, space: usize) -> Result<(), Refusal>
    ensures { result ≡ verdict (write_tests v space) }
{
    if !slip_fits(v) {
        return Err(Refusal::RANGE);
    }
    if space < Slip::LENGTH {
        return Err(Refusal::ROOM);
    }
    Ok(())
}

// Stores the twelve octets, as three numbers of 32 bits.
fn put(out: &mut [u8], v: Slip)
    requires { slip_fits v ≡ true }
    ensures { out.new ≡ sets out.old 0 (slip_octets v) }
{
    let identifier = v.identifier as u32;
    let kind = v.kind as u32;
    let reason = v.reason as u32;
    field::put_long(
        out,
        0,
        ((1 << 7 | identifier) << 7 | kind) << 14 | v.count1 >> 10,
    );
    field::put_long(out, 4, (v.count1 & 0x3ff) << 22 | v.count2 >> 2);
    field::put_long(out, 8, ((v.count2 & 3) << 8 | reason) << 22);
}

// A slip written: RANGE, ROOM.
pub fn write(out: &mut [u8], v: Slip) -> Result<usize, Refusal>
    ensures { Writes (write_tests v (length out.old)) (slip_octets v) out.old out.new result }
{
    write_verdict(v, out.len())?;
    put(out, v);
    Ok(Slip::LENGTH)
}
