// What a line is answered. A call says it by values; the words are written here, and the reason why a line is no call goes to standard
// error.
use crate::bodies;
use breaks::Break;
use connect::Connect;
use ground::Refusal;
use mode::{Due, Heard};
use slip::Slip;
use std::io;
use words::{Fault, Hexadecimal, Numbers, Refused};

// What an accepted call is answered.
#[derive(Clone, Copy)]
pub enum Reply {
    // Accepted, with no more to say.
    Done,
    // What is due.
    Due(Due),
    // The local mode.
    Mode(u8),
    // The local mode, and whether a P' notice is to be sent.
    Heard(Heard),
    // So many messages are held.
    Holds(u32),
    // So many of the octets that the call has written.
    Octets(usize),
    // What was read.
    Connect(Connect),
    Break(Break),
    Slip(Slip),
}

// Why a line has no such answer.
#[derive(Clone, Copy)]
pub enum Denied {
    // The line is no call.
    NoCall(Fault),
    // The library refused the call.
    Refused(Refusal),
}

impl From<Fault> for Denied {
    fn from(fault: Fault) -> Denied {
        Denied::NoCall(fault)
    }
}

impl From<Refusal> for Denied {
    fn from(refusal: Refusal) -> Denied {
        Denied::Refused(refusal)
    }
}

// The letter of a mode. A number that is no mode's is answered as unknown, i.
fn letter(mode: u8) -> char {
    match mode {
        1 => 'a',
        2 => 'v',
        3 => 'm',
        4 => 'f',
        5 => 't',
        _ => 'i',
    }
}

// The word for whether a P' notice is to be sent.
fn notice(due: bool) -> &'static str {
    if due { "notice" } else { "quiet" }
}

// Says what is due.
fn say_due(rt: &impl Print, due: Due) -> io::Result<()> {
    match due {
        Due::Quiet => rt.println("ok quiet"),
        Due::Audio(attempt) => println!(rt; "ok audio {attempt}"),
        Due::Ended => rt.println("ok ended"),
    }
}

// Says what an accepted call is answered.
fn say_reply(rt: &impl Print, reply: Reply, octets: &[u8]) -> io::Result<()> {
    match reply {
        Reply::Done => rt.println("ok"),
        Reply::Due(due) => say_due(rt, due),
        Reply::Mode(mode) => println!(rt; "ok {}", letter(mode)),
        Reply::Heard(heard) => println!(rt; "ok {} {}", letter(heard.local), notice(heard.notice)),
        Reply::Holds(count) => println!(rt; "ok {count}"),
        Reply::Octets(n) => println!(rt; "ok {}", Hexadecimal(&octets[..n.min(octets.len())])),
        Reply::Connect(body) => rt.println(Numbers(&bodies::of_connect(body))),
        Reply::Break(body) => rt.println(Numbers(&bodies::of_break(body))),
        Reply::Slip(slip) => rt.println(Numbers(&bodies::of_slip(slip))),
    }
}

// Answers the line of a number, and says to standard error why it is no call.
pub fn say(
    rt: &(impl Print + Eprint),
    answer: Result<Reply, Denied>,
    number: u64,
    octets: &[u8],
) -> io::Result<()> {
    match answer {
        Ok(reply) => say_reply(rt, reply, octets),
        Err(Denied::Refused(refusal)) => rt.println(Refused(refusal)),
        Err(Denied::NoCall(fault)) => {
            println!(rt; "? {number}")?;
            eprintln!(rt; "line {number}: {fault}")
        }
    }
}
