// What happens to the lines in the night, besides the messages: they open, meet in modem relay, recover, and close.
ghost use Rattle.std.specs.Prelude.{◌<◌};

use crate::clock::Turn;
use crate::paper;
use crate::paper::Event;
use crate::station::Station;
use crate::stream::{Channel, End, LINES, Stream};
use crate::tally::Ledger;
use mode::Modes;
use std::io;

// The identifier of line 0; those of lines 1 to 3 on their first calls come after it.
const IDENTIFIER: u8 = 17;

// The identifier of line 3 on its first call and on its second.
const FIRST: u8 = IDENTIFIER + 3;

const SECOND: u8 = IDENTIFIER + 4;

// What a turn has in store for the lines.
#[derive(Clone, Copy)]
enum Dialling {
    // All lines open.
    Open,
    // A line goes to modem relay.
    Meet(u8),
    // The site goes to voiceband data on a line, and nobody tells the office.
    Part(u8),
    Nothing,
}

impl Dialling {
    // Line 2 begins badly.
    fn in_turn(turn: Turn) -> Dialling {
        match turn.0 {
            0 => Dialling::Open,
            1 => Dialling::Meet(0),
            2 => Dialling::Meet(1),
            3 => Dialling::Part(2),
            4 => Dialling::Meet(3),
            8 => Dialling::Meet(2),
            _ => Dialling::Nothing,
        }
    }
}

// Closes a line at one end, and shows its slip. What it says was handed out there is counted for the other end, which had sent it.
fn close(rt: &impl Print, station: &mut Station, line: u8, ledger: &mut Ledger) -> io::Result<()>
    requires { line < 4 }
{
    let Ok(octets) = station.close(line) else {
        return Ok(());
    };
    if let Ok(slip) = slip::read(&octets) {
        let from = station.end.other();
        let first = Stream::new(from, line, Channel::One);
        let second = Stream::new(from, line, Channel::Two);
        ledger.of_mut(first).note_slip(slip.count1);
        ledger.of_mut(second).note_slip(slip.count2);
    }
    paper::slip(rt, line, station.end, &octets)
}

#[derive(Drop)]
pub struct Ends {
    pub site: Station,
    pub office: Station,
}

impl Ends {
    pub fn new() -> Ends {
        Ends {
            site: Station::new(End::Site),
            office: Station::new(End::Office),
        }
    }

    // Both ends open a line.
    fn open(&mut self, line: u8, identifier: u8, time: u64) {
        let _ = self.site.open(line, identifier, time);
        let _ = self.office.open(line, identifier, time);
    }

    // A line goes to modem relay: the site requests it, the office hears of it, and the site hears of that.
    fn meet(&mut self, line: u8, time: u64) {
        self.site.ask(line, Modes::MODEM, time);
        self.office.hear(line, Modes::MODEM, time);
        self.site.hear(line, Modes::MODEM, time);
    }

    fn dial(&mut self, rt: &impl Print, turn: Turn) -> io::Result<()> {
        let time = turn.time();
        match Dialling::in_turn(turn) {
            Dialling::Open => {
                for line in 0..LINES {
                    self.open(line, IDENTIFIER + line, time);
                }
                Ok(())
            }
            Dialling::Meet(line) => {
                self.meet(line, time);
                paper::tell(rt, turn, line, Event::Met)
            }
            Dialling::Part(line) => {
                self.site.ask(line, Modes::VOICEBAND, time);
                paper::tell(rt, turn, line, Event::Parted)
            }
            Dialling::Nothing => Ok(()),
        }
    }

    // Tells a line the time at both ends. The first two audio indications are lost; the third is heard, and answered by audio.
    fn tick(&mut self, rt: &impl Print, turn: Turn, line: u8) -> io::Result<()> {
        let time = turn.time();
        let due = self.site.tick(line, time);
        self.office.tick(line, time);
        match due {
            None => Ok(()),
            Some(1 | 2) => paper::tell(rt, turn, line, Event::Unheard),
            Some(_) => {
                self.site.hear(line, Modes::AUDIO, time);
                self.office.hear(line, Modes::AUDIO, time);
                paper::tell(rt, turn, line, Event::Recovered)
            }
        }
    }

    // What happens to the lines in a turn: they dial, and are told the time.
    pub fn turn(&mut self, rt: &impl Print, turn: Turn) -> io::Result<()> {
        self.dial(rt, turn)?;
        for line in 0..LINES {
            self.tick(rt, turn, line)?;
        }
        Ok(())
    }

    // Closes a line at both ends.
    pub fn hang_up(
        &mut self,
        rt: &impl Print,
        turn: Turn,
        line: u8,
        ledger: &mut Ledger,
    ) -> io::Result<()>
        requires { line < 4 }
    {
        paper::tell(rt, turn, line, Event::Closed)?;
        close(rt, &mut self.site, line, ledger)?;
        close(rt, &mut self.office, line, ledger)
    }

    // Is line 3 in its first call?
    pub fn is_first_call(&self) -> bool {
        self.site.identifier(3) == FIRST
    }

    // Line 3 has carried its first call's messages: it closes, its identifier rests, so that opening with it is refused, and it
    // opens again with another one.
    pub fn call_again(
        &mut self,
        rt: &impl Print,
        turn: Turn,
        ledger: &mut Ledger,
    ) -> io::Result<()> {
        let time = turn.time();
        self.hang_up(rt, turn, 3, ledger)?;
        let tried = match self.site.open(3, FIRST, time) {
            Ok(()) => Event::OpenedResting,
            Err(_) => Event::Rests(FIRST),
        };
        paper::tell(rt, turn, 3, tried)?;
        self.open(3, SECOND, time);
        paper::tell(rt, turn, 3, Event::Opened(SECOND))?;
        self.meet(3, time);
        paper::tell(rt, turn, 3, Event::Met)
    }
}
