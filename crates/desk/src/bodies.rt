// CONNECT and BREAK bodies and slips, which need no book: read, written, and their values.
use crate::answer::Reply;
use crate::parse::BodyCall;
use breaks::Break;
use connect::{Connect, Way};
use ground::Refusal;
use slip::Slip;
use words::Arguments;

// The 18 values of a CONNECT.
pub fn of_connect(c: Connect) -> [u64; 18] {
    let transmit = c.transmit;
    let receive = c.receive;
    [
        c.modulation.into(),
        c.direction.into(),
        c.compression.into(),
        c.correction.into(),
        transmit.rate.into(),
        receive.rate.into(),
        c.dlci.into(),
        c.octet.into(),
        c.rawbit.into(),
        c.frame.into(),
        c.charstat.into(),
        c.chardyn.into(),
        transmit.dictionary.into(),
        receive.dictionary.into(),
        transmit.string.into(),
        receive.string.into(),
        transmit.history.into(),
        receive.history.into(),
    ]
}

// The CONNECT of 18 values.
fn connect_of(a: Arguments) -> Connect {
    let transmit = Way {
        rate: a.short(4),
        dictionary: a.short(12),
        string: a.octet(14),
        history: a.short(16),
    };
    let receive = Way {
        rate: a.short(5),
        dictionary: a.short(13),
        string: a.octet(15),
        history: a.short(17),
    };
    Connect {
        modulation: a.octet(0),
        direction: a.octet(1),
        compression: a.octet(2),
        correction: a.octet(3),
        transmit,
        receive,
        dlci: a.flag(6),
        octet: a.flag(7),
        rawbit: a.flag(8),
        frame: a.flag(9),
        charstat: a.flag(10),
        chardyn: a.flag(11),
    }
}

// The three values of a BREAK.
pub fn of_break(b: Break) -> [u64; 3] {
    [b.source.into(), b.kind.into(), b.lasts.into()]
}

// The BREAK of three values.
fn break_of(a: Arguments) -> Break {
    Break {
        source: a.octet(0),
        kind: a.octet(1),
        lasts: a.octet(2),
    }
}

// The five values of a slip.
pub fn of_slip(s: Slip) -> [u64; 5] {
    [
        s.identifier.into(),
        s.kind.into(),
        s.count1.into(),
        s.count2.into(),
        s.reason.into(),
    ]
}

// Makes a call whose words are good.
pub fn make(call: BodyCall, a: Arguments, octets: &mut [u8]) -> Result<Reply, Refusal> {
    let most = octets.len();
    Ok(match call {
        BodyCall::ReadConnect => Reply::Connect(connect::read(a.octets(octets))?),
        BodyCall::ReadBreak => Reply::Break(breaks::read(a.octets(octets))?),
        BodyCall::ReadSlip => Reply::Slip(slip::read(a.octets(octets))?),
        BodyCall::WriteConnect => {
            let out = &mut octets[..a.space(18, most)];
            Reply::Octets(connect::write(out, connect_of(a))?)
        }
        BodyCall::WriteBreak => {
            let out = &mut octets[..a.space(3, most)];
            Reply::Octets(breaks::write(out, break_of(a))?)
        }
    })
}
