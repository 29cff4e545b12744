// A local request (RULES 9.9, RULES 9.10, RULES 9.11): its refusals and the call. What it means is defined in specs/Request.antt.
// When a mode is requested, and why, is for the caller to decide.
ghost use Rattle.std.specs.Prelude.{◌≡◌, [], ◌∷◌};
ghost use Rattle.ground.specs.Refusal.{verdict};
ghost use Rattle.mode.specs.Given.{offered};
ghost use Rattle.mode.specs.Request.{ask_tests, ask_step};
ghost use Rattle.mode.specs.Says.{ask_says, says};

use crate::refused;
use ground::Refusal;
use mode::{Modes, Step, channels_for};

// A mode that a request may name: a, and v and m where they are offered.
fn offers(modes: Modes, mode: u8) -> bool
    ensures { result ≡ offered modes mode }
{
    (mode == Modes::AUDIO)
        | ((mode == Modes::VOICEBAND) & (modes.vbd == Modes::YES))
        | ((mode == Modes::MODEM) & (modes.relay == Modes::YES))
}

// What refuses a request: CLOCK, RECOVERY, RANGE, MODE.
fn ask_verdict(modes: Modes, mode: u8, time: u64) -> Result<(), Refusal>
    ensures { result ≡ verdict (ask_tests modes mode time) }
{
    if time < modes.last {
        return Err(Refusal::CLOCK);
    }
    if modes.tries != 0 {
        return Err(Refusal::RECOVERY);
    }
    if !offers(modes, mode) {
        return Err(Refusal::RANGE);
    }
    if (mode == Modes::MODEM) & (modes.left == Modes::YES) {
        return Err(Refusal::MODE);
    }
    Ok(())
}

// A mode is requested at a time, by the line's own side.
pub fn ask(modes: Modes, mode: u8, time: u64) -> Step<u8>
    ensures value { result ≡ ask_step modes mode time }
    ensures said { ask_says result.answer ≡ says (verdict (ask_tests modes mode time)) (mode ∷ []) }
{
    match ask_verdict(modes, mode, time) {
        Err(why) => refused(modes, why),
        Ok(()) => {
            let next = modes.moved(mode, modes.remote, time);
            let channels = channels_for(modes.local, mode);
            Step {
                answer: Ok(mode),
                modes: next,
                channels,
            }
        }
    }
}
