// The media modes of one line, by value: the record, the steps that it is changed by, and what a mode call gives.
// It follows RULES 9.1 to RULES 9.14 and RULES 10.1 to RULES 10.12 (V.150.1, C.5.3 and C.5.4.1). What an indication, a request and a
// tick make of the record is defined in specs/, and the laws of any sequence of them stand in proofs/; `moves` has the calls.
#![tactic(auto)]

ghost use Rattle.std.specs.Prelude.{◌≡◌};
ghost use Rattle.mode.specs.Moved.{opened_modes, closed_modes, enters, leaves, channels_for, timed, left_by, moved, trying, stayed, ended};
ghost use Rattle.mode.specs.Fit.{modes_fit};

use ground::Refusal;

// What a line remembers of its media modes. A flag is 1 where it is so, and 0 where it is not.
#[repr(C)]
#[derive(Clone, Copy)]
pub struct Modes {
    // VBD is offered, as opening named it.
    pub vbd: u8,
    // Modem relay is offered, as opening named it.
    pub relay: u8,
    // The local mode: 1 a, 2 v or 3 m.
    pub local: u8,
    // The remote mode, as last heard: 1 a to 5 t, or 0 for i.
    pub remote: u8,
    // Modem relay was left in this opening.
    pub left: u8,
    // 0 no recovery, 1 to 5 recovering at that try, 6 ended by recovery.
    pub tries: u8,
    // When the present difference of the modes began; read only while they differ, and then at most `last`.
    pub since: u64,
    // When the last try was made; read only from try 1 on, and then at most `last`.
    pub tried: u64,
    // The line's last time, in milliseconds: that of its opening or of its last accepted mode call.
    pub last: u64,
}

// What a line must do with its channels after a mode call.
#[derive(Clone, Copy)]
pub enum Channels {
    // They stay.
    Stay,
    // m was entered: both start fresh.
    Fresh,
    // m was left: nothing is held, stored or owed any more; counts stay.
    Emptied,
}

// What an indication heard is answered: the local mode, and whether a P' notice is to be sent.
#[derive(Clone, Copy)]
pub struct Heard {
    pub local: u8,
    pub notice: bool,
}

// What is due at a tick.
#[derive(Clone, Copy)]
pub enum Due {
    // Nothing.
    Quiet,
    // An audio indication: that try, 1 to 5.
    Audio(u8),
    // Nothing any more: the line has ended.
    Ended,
}

// What a mode call gives: its answer, the next modes, and what becomes of the channels.
#[derive(Clone, Copy)]
pub struct Step<T> {
    pub answer: Result<T, Refusal>,
    pub modes: Modes,
    pub channels: Channels,
}

// The local mode goes from `before` to `after` and enters m. Leaving is the function below: one test each, and each is spoken of.
fn enters_m(before: u8, after: u8) -> bool
    ensures { result ≡ enters before after }
{
    (before != Modes::MODEM) & (after == Modes::MODEM)
}

// The local mode goes from `before` to `after` and leaves m.
fn leaves_m(before: u8, after: u8) -> bool
    ensures { result ≡ leaves before after }
{
    (before == Modes::MODEM) & (after != Modes::MODEM)
}

// What becomes of the channels, by the local mode before and after.
pub fn channels_for(before: u8, after: u8) -> Channels
    ensures { result ≡ channels_for before after }
{
    if enters_m(before, after) {
        return Channels::Fresh;
    }
    if leaves_m(before, after) {
        return Channels::Emptied;
    }
    Channels::Stay
}

impl Modes {
    // A flag that is set. Flags and modes of a record are numbers, because any memory may be handed in as a book, and what is none is BOOK.
    pub const YES: u8 = 1;

    // The modes, as Table C.1 numbers them; 0 is i. A call may name any number, and what is no mode is RANGE, so no enum is asked for.
    pub const UNKNOWN: u8 = 0;

    pub const AUDIO: u8 = 1;

    pub const VOICEBAND: u8 = 2;

    pub const MODEM: u8 = 3;

    pub const FAX: u8 = 4;

    pub const TEXT: u8 = 5;

    // Recovery (C.5.4.1): T2, the difference that is borne; T1, from try to try; N, the tries; and the mark of an ended line.
    pub const T2: u64 = 1000;

    pub const T1: u64 = 1000;

    pub const TRIES: u8 = 5;

    pub const ENDED: u8 = 6;

    // The modes of a line just opened.
    pub fn opened(vbd: bool, relay: bool, time: u64) -> Modes
        ensures { result ≡ opened_modes vbd relay time }
    {
        Modes {
            vbd: vbd as u8,
            relay: relay as u8,
            local: Modes::AUDIO,
            remote: Modes::AUDIO,
            left: 0,
            tries: 0,
            since: 0,
            tried: 0,
            last: time,
        }
    }

    // The modes of a closed line.
    pub fn closed() -> Modes
        ensures { result ≡ closed_modes }
    {
        Modes::opened(false, false, 0)
    }

    // What BOOK asks of the modes of an open line.
    pub fn fits(self) -> bool
        ensures { result ≡ modes_fit self }
    {
        (self.vbd <= Modes::YES)
            & (self.relay <= Modes::YES)
            & (self.left <= Modes::YES)
            & (Modes::AUDIO <= self.local)
            & (self.local <= Modes::MODEM)
            & (self.remote <= Modes::TEXT)
            & (self.tries <= Modes::ENDED)
            & ((self.local != Modes::VOICEBAND) | (self.vbd == Modes::YES))
            & ((self.local != Modes::MODEM) | (self.relay == Modes::YES))
            & ((self.tries == 0) | (self.local == Modes::AUDIO))
            & ((self.local == self.remote) | (self.since <= self.last))
            & ((self.tries == 0) | (self.tried <= self.last))
    }

    // When the present difference began, once the modes are these at that time.
    fn timed(self, local: u8, remote: u8, time: u64) -> u64
        ensures { result ≡ timed self local remote time }
    {
        if self.local == self.remote {
            if local == remote { self.since } else { time }
        } else {
            if local == remote { 0 } else { self.since }
        }
    }

    // Whether modem relay was left, once the local mode is this one.
    fn left_by(self, local: u8) -> u8
        ensures { result ≡ left_by self local }
    {
        if leaves_m(self.local, local) {
            Modes::YES
        } else {
            self.left
        }
    }

    // The record once the modes are these at that time.
    pub fn moved(self, local: u8, remote: u8, time: u64) -> Modes
        ensures { result ≡ moved self local remote time }
    {
        let left = self.left_by(local);
        let since = self.timed(local, remote, time);
        Modes {
            local,
            remote,
            left,
            since,
            last: time,
            ..self
        }
    }

    // The record at that try, the last try made at that time.
    pub fn trying(self, tries: u8, time: u64) -> Modes
        ensures { result ≡ trying self tries time }
    {
        Modes {
            tries,
            tried: time,
            ..self
        }
    }

    // The record at a later time, with nothing else changed.
    pub fn stayed(self, time: u64) -> Modes
        ensures { result ≡ stayed self time }
    {
        Modes { last: time, ..self }
    }

    // The line has ended by recovery.
    pub fn ended(self) -> bool
        ensures { result ≡ ended self }
    {
        Modes::TRIES < self.tries
    }
}
