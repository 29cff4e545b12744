// What every crate stands on: the refusals by name, and the number of each (RULES 13.1 to RULES 13.18).
// A call that may refuse answers a `Result` of what it gives, or of one of these.
#![tactic(auto)]

ghost use Rattle.std.specs.Prelude.{◌≡◌, Some};
ghost use Rattle.ground.specs.Refusal.{number_of, name_of};

use std::fmt;

// The eighteen refusals, in the order of their numbers.
#[derive(Clone, Copy, Debug, PartialEq, Eq)]
pub enum Refusal {
    SHORT,
    FORM,
    TYPE,
    NOLINE,
    MODE,
    CHANNEL,
    SIZE,
    FULL,
    SPENT,
    NOTHING,
    ROOM,
    TAKEN,
    RANGE,
    CLOCK,
    RECOVERY,
    LENGTH,
    RESERVED,
    BOOK,
}

// The number of a refusal (RULES 13.1 to RULES 13.18).
impl From<Refusal> for u8 {
    ghost from_gives = { λ r n. n ≡ number_of r };

    fn from(r: Refusal) -> u8 {
        match r {
            Refusal::SHORT => 1,
            Refusal::FORM => 2,
            Refusal::TYPE => 3,
            Refusal::NOLINE => 4,
            Refusal::MODE => 5,
            Refusal::CHANNEL => 6,
            Refusal::SIZE => 7,
            Refusal::FULL => 8,
            Refusal::SPENT => 9,
            Refusal::NOTHING => 10,
            Refusal::ROOM => 11,
            Refusal::TAKEN => 12,
            Refusal::RANGE => 13,
            Refusal::CLOCK => 14,
            Refusal::RECOVERY => 15,
            Refusal::LENGTH => 16,
            Refusal::RESERVED => 17,
            Refusal::BOOK => 18,
        }
    }
}

// The name of a refusal, as the rules write it (RULES 13.1 to RULES 13.18).
impl fmt::Display for Refusal {
    ghost output = { λ r. Some (name_of r) };

    fn fmt<W: fmt::Write>(&self, f: &mut fmt::Formatter<W>) -> fmt::Result {
        f.write_str(match self {
            Refusal::SHORT => "SHORT",
            Refusal::FORM => "FORM",
            Refusal::TYPE => "TYPE",
            Refusal::NOLINE => "NOLINE",
            Refusal::MODE => "MODE",
            Refusal::CHANNEL => "CHANNEL",
            Refusal::SIZE => "SIZE",
            Refusal::FULL => "FULL",
            Refusal::SPENT => "SPENT",
            Refusal::NOTHING => "NOTHING",
            Refusal::ROOM => "ROOM",
            Refusal::TAKEN => "TAKEN",
            Refusal::RANGE => "RANGE",
            Refusal::CLOCK => "CLOCK",
            Refusal::RECOVERY => "RECOVERY",
            Refusal::LENGTH => "LENGTH",
            Refusal::RESERVED => "RESERVED",
            Refusal::BOOK => "BOOK",
        })
    }
}
