// The mode calls on a book of four lines: an indication heard, a request, a tick (RULES 9.3, RULES 10.1). They are calls of the
// library, and `gateway` passes them on.
#![tactic(auto)]

ghost use Rattle.std.specs.Prelude.{ℕ, ◌≡◌, ◌<◌, List};
ghost use Rattle.mode.specs.Acts as act;
ghost use Rattle.mode.specs.Says.{hear_says, ask_says, tick_says};
ghost use Rattle.mode.specs.Tries.{Tries};
ghost use Rattle.calls.specs.Call as call;
ghost use Rattle.signals.specs.Step.{after_step};
ghost use Rattle.calls.specs.Result.{result_of, does, answer_in};

use book::Book;
use calls::After;
use ground::Refusal;
use mode::{Due, Heard, Step};

// The book once a mode call's step is made on its line, and what the step answers.
fn stepped<T>(book: Book, line: u8, step: Step<T>) -> Result<After<T>, Refusal>
    requires { line < 4 }
    ensures { result ≡ after_step book line step }
{
    let answer = step.answer?;
    let next = book.line(line).stepped(step.modes, step.channels);
    let book = book.with_line(line, next);
    Ok(After { book, answer })
}

// Hears an indication of the far gateway's mode. Answers the local mode, and whether a P' notice is to be sent.
// Refuses BOOK, RANGE for the line, NOLINE, CLOCK, RECOVERY, RANGE for the mode.
pub fn hear(book: Book, line: u8, mode: u8, time: u64) -> Result<After<Heard>, Refusal>
    ensures { (store out : List ℕ) → does hear_says book result store out ≡ result_of (call.mode line (act.hear mode time)) book store out }
{
    calls::open_line_verdict(book, line)?;
    stepped(book, line, moves::hear(book.line(line).modes, mode, time))
}

// Requests a mode. Answers the local mode. Refuses BOOK, RANGE for the line, NOLINE, CLOCK, RECOVERY, RANGE for the mode, MODE.
pub fn ask(book: Book, line: u8, mode: u8, time: u64) -> Result<After<u8>, Refusal>
    ensures { (store out : List ℕ) → does ask_says book result store out ≡ result_of (call.mode line (act.ask mode time)) book store out }
{
    calls::open_line_verdict(book, line)?;
    stepped(book, line, moves::ask(book.line(line).modes, mode, time))
}

// Tells a line the time. Answers whether an audio indication is due, and which try, or that recovery has ended the line.
// Refuses BOOK, RANGE for the line, NOLINE, CLOCK.
pub fn tick(book: Book, line: u8, time: u64) -> Result<After<Due>, Refusal>
    ensures { ((store out : List ℕ) → does tick_says book result store out ≡ result_of (call.mode line (act.tick time)) book store out) × Tries (answer_in result) }
{
    calls::open_line_verdict(book, line)?;
    stepped(book, line, moves::tick(book.line(line).modes, time))
}
