// What the night prints: events by the clock, a bar of progress, the table, and the verdict.
ghost use Rattle.std.specs.Prelude.{◌<◌};

use crate::clock::Turn;
use crate::stream::{End, LINES, Stream};
use crate::tally::{Ledger, Tally};
use std::fmt;
use std::io::Result;

// What happens to a line.
#[derive(Clone, Copy)]
pub enum Event {
    // It is in modem relay.
    Met,
    // The site asks for voiceband data, and the office does not hear of it.
    Parted,
    // An audio indication is lost.
    Unheard,
    // An audio indication is heard.
    Recovered,
    Closed,
    // Opening is refused, since that identifier rests.
    Rests(u8),
    // Opening with an identifier that rests is not refused.
    OpenedResting,
    // It is open again with that identifier.
    Opened(u8),
}

impl fmt::Display for Event {
    fn fmt<W: fmt::Write>(&self, f: &mut fmt::Formatter<W>) -> fmt::Result {
        match self {
            Event::Met => f.write_str("in modem relay at both ends"),
            Event::Parted => f.write_str("the site asks for VBD, and its indication is lost"),
            Event::Unheard => {
                f.write_str("the modes differ; an audio indication is sent, and lost")
            }
            Event::Recovered => {
                f.write_str("the third audio indication is heard, and recovery is over")
            }
            Event::Closed => f.write_str("closed"),
            Event::Rests(identifier) => write!(
                f,
                "identifier {identifier} rests, and opening with it is refused"
            ),
            Event::OpenedResting => f.write_str("OPENED WITH AN IDENTIFIER THAT RESTS"),
            Event::Opened(identifier) => write!(f, "open with identifier {identifier}"),
        }
    }
}

// Octets in hexadecimal.
#[derive(Clone, Copy)]
struct Hexadecimal<'a>(&'a [u8]);

impl fmt::Display for Hexadecimal<'_> {
    fn fmt<W: fmt::Write>(&self, f: &mut fmt::Formatter<W>) -> fmt::Result {
        for octet in self.0 {
            write!(f, "{octet:02X}")?;
        }
        Ok(())
    }
}

// Says what is about to run.
pub fn title(rt: &impl Print, seed: u64) -> Result<()> {
    println!(rt; "A night at the garage: four lines, two gateways, and a bad link. Seed {seed}")?;
    println!(rt;
        "It loses one packet in 8, repeats one in 16, and delays each by 1 to 4 turns of 3 seconds, a repetition by 1 to 8.\n"
    )
}

// Says what happens to a line in a turn.
pub fn tell(rt: &impl Print, turn: Turn, line: u8, event: Event) -> Result<()> {
    println!(rt; "{turn}  line {line}: {event}")
}

// How many cells a bar has.
const CELLS: u64 = 40;

// Draws a bar: how much of all that was asked for is handed out.
pub fn progress(rt: &impl Print, turn: Turn, ledger: &Ledger) -> Result<()> {
    let handed_out = ledger.total(|tally| tally.handed_out);
    let asked = ledger.total(|tally| tally.asked);
    let share = handed_out.saturating_mul(CELLS).checked_div(asked);
    let full = share.unwrap_or(0).min(CELLS);
    let empty = CELLS - full;
    let (full, empty) = (full as usize, empty as usize);
    println!(rt;
        "{turn}  {:█<full$}{:░<empty$}{handed_out:>7} handed out",
        "", ""
    )
}

// Shows a slip of a line at an end.
pub fn slip(rt: &impl Print, line: u8, end: End, slip: &[u8]) -> Result<()> {
    println!(rt;
        "          slip of line {line} at the {end:<6}: {}",
        Hexadecimal(slip)
    )
}

// A row of the table.
fn row(rt: &impl Print, stream: Stream, tally: &Tally) -> Result<()> {
    println!(rt;
        "{:>4}{:>9}  to the {:<6}{:>11}{:>11}{:>11}{:>11}{:>11}{:>11}{:>11}{:>11}{:>11}",
        stream.line,
        stream.channel.number(),
        stream.from.other(),
        tally.taken,
        tally.handed_out,
        tally.by_slip,
        tally.octets,
        tally.written,
        tally.lost,
        tally.repeated,
        tally.overtaken,
        tally.refused
    )
}

// The table, line by line.
pub fn table(rt: &impl Print, ledger: &Ledger) -> Result<()> {
    println!(rt;
        "\nline  channel  way                taken handed out    by slip     octets    packets       lost   repeated  reordered    refused"
    )?;
    for line in 0..LINES {
        for stream in Stream::of_line(line) {
            row(rt, stream, ledger.of(stream))?;
        }
    }
    println!(rt;
        "refused: packets of line 3's first call that came when it had closed, and no open line had its identifier"
    )
}

// Says whether every message taken was handed out once, in order and octet for octet.
pub fn verdict(rt: &impl Print, ledger: &Ledger) -> Result<()> {
    let verdict = if ledger.is_right() {
        "Right: every message taken was handed out once, in order and octet for octet, and the slips agree"
    } else {
        "WRONG: not every message taken was handed out once, in order and octet for octet, as the slips say"
    };
    println!(rt;
        "\n{verdict}: {} taken, {} handed out, of {}",
        ledger.total(|tally| tally.taken),
        ledger.total(|tally| tally.handed_out),
        ledger.total(|tally| tally.asked)
    )
}
