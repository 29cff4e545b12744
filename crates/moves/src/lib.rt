// The mode calls on one line's modes, by value: an indication heard, a local request, a tick. Each gives its answer, the next modes, and
// what is to become of the line's channels, which `line` carries out. What they mean is defined in `mode`, beside the record and the laws;
// NOLINE is refused in `calls`. They stand apart from it for the check's sake: an edit of either checks half (docs/DECISIONS.md).
#![tactic(auto)]

ghost use Rattle.std.specs.Prelude.{◌≡◌, Err};
ghost use Rattle.mode.specs.declared.Channels.TheVariants.{Stay};

use ground::Refusal;
use mode::{Channels, Modes, Step};

mod indication; // indication.rt: an indication heard
mod recovery; // recovery.rt: a tick, and recovery by the clock
mod request; // request.rt: a local request

pub use indication::hear;
pub use recovery::tick;
pub use request::ask;

// A call refused: the modes and the channels stay.
fn refused<T>(modes: Modes, why: Refusal) -> Step<T>
    ensures { result ≡ record { answer = Err why; modes = modes; channels = Stay } }
{
    Step {
        answer: Err(why),
        modes,
        channels: Channels::Stay,
    }
}
