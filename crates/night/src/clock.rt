// The turns that the night goes by. A turn is three seconds; the night begins at 22:00.
ghost use Rattle.std.specs.Prelude.{◌≡◌, ◌*◌};

use std::fmt;

#[derive(Clone, Copy)]
pub struct Turn(pub u16);

// How long a turn is.
const SECONDS: u32 = 3;

// When the night begins, in seconds after midnight.
const EVENING: u32 = 22 * 3600;

impl Turn {
    // No night is longer: it ends when all is handed out, or here.
    pub const LAST: u16 = 20000;

    // The turn's seconds of the night.
    fn seconds(self) -> u32
        ensures { result ≡ self.0 * 3 }
    {
        u32::from(self.0) * SECONDS
    }

    // The time that the gateways are told, in milliseconds of the night.
    pub fn time(self) -> u64 {
        u64::from(self.seconds()) * 1000
    }
}

// The time of day.
impl fmt::Display for Turn {
    fn fmt<W: fmt::Write>(&self, f: &mut fmt::Formatter<W>) -> fmt::Result {
        let seconds = EVENING + self.seconds();
        let hour = seconds / 3600 % 24;
        let minute = seconds / 60 % 60;
        let second = seconds % 60;
        write!(f, "{hour:02}:{minute:02}:{second:02}")
    }
}
