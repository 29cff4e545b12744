// A tick, and recovery: only a tick begins it, and a tick ends the line after the last try (RULES 10.1, RULES 10.2, RULES 10.6; V.150.1,
// C.5.4.1). What a tick means is defined in specs/Recovery.antt. The clock is the caller's.
ghost use Rattle.std.specs.Prelude.{◌≡◌, [], ◌∷◌};
ghost use Rattle.ground.specs.Refusal.{verdict};
ghost use Rattle.mode.specs.Recovery.{tick_tests, due, ticked_modes, ticked_answer, try_due, tick_step};
ghost use Rattle.mode.specs.Says.{tick_says, says};

use crate::refused;
use ground::Refusal;
use mode::{Due, Modes, Step, channels_for};

// What refuses a tick: CLOCK.
fn tick_verdict(modes: Modes, time: u64) -> Result<(), Refusal>
    ensures { result ≡ verdict (tick_tests modes time) }
{
    if time < modes.last {
        return Err(Refusal::CLOCK);
    }
    Ok(())
}

// A try, or the end after the last one, is due.
fn due(modes: Modes, time: u64) -> bool
    ensures { result ≡ due modes time }
{
    if modes.ended() {
        return false;
    }
    if modes.tries == 0 {
        return (modes.local != modes.remote) & (Modes::T2 < time.saturating_sub(modes.since));
    }
    Modes::T1 <= time.saturating_sub(modes.tried)
}

// The record after a tick.
fn ticked_modes(modes: Modes, time: u64) -> Modes
    ensures { result ≡ ticked_modes modes time }
{
    if !due(modes, time) {
        return modes.stayed(time);
    }
    let tries = modes.tries;
    if tries == 0 {
        return modes
            .moved(Modes::AUDIO, Modes::UNKNOWN, time)
            .trying(1, time);
    }
    let stayed = modes.stayed(time);
    if tries == Modes::TRIES {
        return stayed.trying(Modes::ENDED, modes.tried);
    }
    stayed.trying(tries + 1, time)
}

// What a tick answers.
fn ticked_answer(modes: Modes, time: u64) -> Due
    ensures { result ≡ ticked_answer modes time }
{
    if modes.ended() {
        return Due::Ended;
    }
    if !due(modes, time) {
        return Due::Quiet;
    }
    let tries = modes.tries;
    if tries == Modes::TRIES {
        return Due::Ended;
    }
    Due::Audio(tries + 1)
}

// A tick of the caller's clock.
pub fn tick(modes: Modes, time: u64) -> Step<Due>
    ensures value { result ≡ tick_step modes time }
    ensures said { tick_says result.answer ≡ says (verdict (tick_tests modes time)) (try_due modes time ∷ []) }
{
    match tick_verdict(modes, time) {
        Err(why) => refused(modes, why),
        Ok(()) => {
            let answer = ticked_answer(modes, time);
            let next = ticked_modes(modes, time);
            let channels = channels_for(modes.local, next.local);
            Step {
                answer: Ok(answer),
                modes: next,
                channels,
            }
        }
    }
}
