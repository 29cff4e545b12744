// The BREAK body: V.150.1 clause 15.4.6, Table 26, as RULES section 12 serves it. Two octets, read and written.
// BREAK, CONNECT, slip and packet are each read and written by two lines over a verdict of their own. A trait would have to name their types,
// tests, octets and answers, and be longer than these lines.
#![tactic(auto)]

ghost use Rattle.std.specs.Prelude.{◌≡◌, length};
ghost use Rattle.ground.specs.Refusal.{verdict};
ghost use Rattle.ground.specs.Answer.{Gives, Writes};
ghost use Rattle.breaks.specs.Break.{break_at, break_fits, break_octets, answer_of, read_tests, write_tests};

use ground::Refusal;

#[derive(Clone, Copy)]
pub struct Break {
    // The protocol that it came by: 0 LAPM, 1 Annex A of V.42, 2 V.14. A caller may hand in any number, and others are RANGE, so it is
    // no enum; nor is the kind.
    pub source: u8,
    // 0 not applicable, 1 destructive and expedited, 2 expedited, 3 neither.
    pub kind: u8,
    // How long it lasts, in 10 ms: 0 is the default length, 255 longer than 2.54 s.
    pub lasts: u8,
}

fn break_at(s: &[u8]) -> Break
    ensures { result ≡ break_at s.now }
{
    let w = field::word_at(s, 0);
    Break {
        source: (w >> 12) as u8,
        kind: (w >> 8 & 15) as u8,
        lasts: (w & 0xff) as u8,
    }
}

#[tactic(auto, unfolding(crate::specs::Break::break_fits))]
fn break_fits(b: Break) -> bool
    ensures { result ≡ break_fits b }
{
    b.source < 3 && b.kind < 4
}

fn read_verdict(s: &[u8]) -> Result<(), Refusal>
    ensures { result ≡ verdict (read_tests s.now) }
{
    if s.len() != 2 {
        return Err(Refusal::LENGTH);
    }
    if !break_fits(break_at(s)) {
        return Err(Refusal::RANGE);
    }
    Ok(())
}

// A body read: LENGTH, RANGE.
pub fn read(s: &[u8]) -> Result<Break, Refusal>
    ensures { Gives answer_of (read_tests s.now) (break_at s.now) result }
{
    read_verdict(s)?;
    Ok(break_at(s))
}

fn write_verdict(b: Break, space: usize) -> Result<(), Refusal>
    ensures { result ≡ verdict (write_tests b space) }
{
    if !break_fits(b) {
        return Err(Refusal::RANGE);
    }
    if space < 2 {
        return Err(Refusal::ROOM);
    }
    Ok(())
}

// A body written: RANGE, ROOM.
pub fn write(out: &mut [u8], b: Break) -> Result<usize, Refusal>
    ensures { Writes (write_tests b (length out.old)) (break_octets b) out.old out.new result }
{
    write_verdict(b, out.len())?;
    let word = ((b.source as u16) << 4 | b.kind as u16) << 8 | b.lasts as u16;
    field::put_word(out, 0, word);
    Ok(2)
}
