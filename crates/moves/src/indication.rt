// An indication heard (RULES 9.3 to RULES 9.8, RULES 10.4, RULES 10.5; V.150.1, C.5.3.2): its refusals, what it gives, and the call.
// What it means is defined in specs/Given.antt and specs/Indication.antt. What is sent to the other end is the caller's task.
ghost use Rattle.std.specs.Prelude.{◌≡◌, [], ◌∷◌};
ghost use Rattle.ground.specs.Refusal.{verdict};
ghost use Rattle.mode.specs.Given.{as_voiceband, as_modem, fax_or_text, given};
ghost use Rattle.mode.specs.Indication.{hear_tests, heard_mode, heard_modes, notice, hear_step};
ghost use Rattle.ground.specs.Pick.{bit};
ghost use Rattle.mode.specs.Says.{hear_says, says};

use crate::refused;
use ground::Refusal;
use mode::{Heard, Modes, Step, channels_for};

// What an indication of v gives.
fn as_voiceband(modes: Modes) -> u8
    ensures { result ≡ as_voiceband modes }
{
    if modes.vbd == Modes::YES {
        Modes::VOICEBAND
    } else {
        Modes::AUDIO
    }
}

// What an indication of m gives.
fn as_modem(modes: Modes) -> u8
    ensures { result ≡ as_modem modes }
{
    if (modes.relay == Modes::YES) & ((modes.left != Modes::YES) | (modes.local == Modes::MODEM)) {
        Modes::MODEM
    } else {
        as_voiceband(modes)
    }
}

// What an indication of fax or text gives: the one place where that is chosen.
fn fax_or_text(modes: Modes) -> u8
    ensures { result ≡ fax_or_text modes }
{
    as_voiceband(modes)
}

// What an indication gives, outside recovery.
fn given(modes: Modes, mode: u8) -> u8
    ensures { result ≡ given modes mode }
{
    if mode == Modes::AUDIO {
        return Modes::AUDIO;
    }
    if mode == Modes::VOICEBAND {
        return as_voiceband(modes);
    }
    if mode == Modes::MODEM {
        return as_modem(modes);
    }
    fax_or_text(modes)
}

// What refuses an indication: CLOCK, RECOVERY, RANGE.
fn hear_verdict(modes: Modes, mode: u8, time: u64) -> Result<(), Refusal>
    ensures { result ≡ verdict (hear_tests modes mode time) }
{
    if time < modes.last {
        return Err(Refusal::CLOCK);
    }
    if modes.ended() {
        return Err(Refusal::RECOVERY);
    }
    if !(Modes::AUDIO..=Modes::TEXT).contains(&mode) {
        return Err(Refusal::RANGE);
    }
    Ok(())
}

// The local mode after an indication: in recovery it stays a.
fn heard_mode(modes: Modes, mode: u8) -> u8
    ensures { result ≡ heard_mode modes mode }
{
    if modes.tries == 0 {
        given(modes, mode)
    } else {
        Modes::AUDIO
    }
}

// The record after an indication: it is recorded as the remote mode, and hearing a ends recovery.
fn heard_modes(modes: Modes, mode: u8, time: u64) -> Modes
    ensures { result ≡ heard_modes modes mode time }
{
    let next = modes.moved(heard_mode(modes, mode), mode, time);
    if (0 < modes.tries) & (mode == Modes::AUDIO) {
        next.trying(0, 0)
    } else {
        next
    }
}

// An indication of a mode is heard at a time.
pub fn hear(modes: Modes, mode: u8, time: u64) -> Step<Heard>
    ensures value { result ≡ hear_step modes mode time }
    ensures said { hear_says result.answer ≡ says (verdict (hear_tests modes mode time)) (heard_mode modes mode ∷ bit (notice modes mode) ∷ []) }
{
    match hear_verdict(modes, mode, time) {
        Err(why) => refused(modes, why),
        Ok(()) => {
            let local = heard_mode(modes, mode);
            let notice = mode != modes.remote;
            let next = heard_modes(modes, mode, time);
            let channels = channels_for(modes.local, local);
            Step {
                answer: Ok(Heard { local, notice }),
                modes: next,
                channels,
            }
        }
    }
}
