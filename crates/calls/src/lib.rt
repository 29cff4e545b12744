// The order of refusals: RULES section 14. Each function here is a verdict on a book: what every call asks
// first, all that opening and closing ask before they make their effect, and of the mode calls what they ask of the book, up to
// NOLINE; CLOCK to MODE are asked in `moves`. Which calls there are and what each does is defined in specs/, beside the order, specs/Order.antt.
// Of the store and of the output only the length counts.
#![tactic(auto)]

ghost use Rattle.std.specs.Prelude.{◌≡◌, ◌≤◌, ◌<◌, [], ◌∷◌};
ghost use Rattle.ground.specs.Refusal.{verdict};
ghost use Rattle.book.specs.Book.{line_of};
ghost use Rattle.calls.specs.Order.{open_order, close_order};
ghost use Rattle.calls.specs.Stages.{fit_book, roomy, line_number, must_be_open, open_tests};

use book::Book;
use ground::Refusal;
use line::{Line, Settings};
use slip::Slip;

// What an accepted call leaves: the book, and what it answers. A refused one leaves the book as it was.
#[derive(Clone, Copy)]
pub struct After<T> {
    pub book: Book,
    pub answer: T,
}

// RANGE for the line.
fn number_verdict(line: u8) -> Result<(), Refusal>
    ensures { result ≡ verdict (line_number line ∷ []) }
{
    if 3 < line {
        return Err(Refusal::RANGE);
    }
    Ok(())
}

// BOOK, RANGE for the line.
pub fn line_verdict(book: Book, line: u8) -> Result<(), Refusal>
    ensures { result ≡ verdict (fit_book book ∷ line_number line ∷ []) }
{
    if !book.fits() {
        return Err(Refusal::BOOK);
    }
    number_verdict(line)
}

// BOOK, ROOM for the store.
pub fn store_verdict(book: Book, store: usize) -> Result<(), Refusal>
    ensures { result ≡ verdict (fit_book book ∷ roomy book store ∷ []) }
{
    if !book.fits() {
        return Err(Refusal::BOOK);
    }
    if store < Book::STORE {
        return Err(Refusal::ROOM);
    }
    Ok(())
}

// BOOK, ROOM for the store, RANGE for the line.
pub fn store_line_verdict(book: Book, store: usize, line: u8) -> Result<(), Refusal>
    ensures { result ≡ verdict (fit_book book ∷ roomy book store ∷ line_number line ∷ []) }
{
    store_verdict(book, store)?;
    number_verdict(line)
}

// What opening asks of a line number within its range: TAKEN for the line, RANGE, TAKEN for the identifier.
fn may_open_line(book: Book, line: u8, settings: Settings) -> Result<(), Refusal>
    requires { (line < 4) × (book.rested ≤ 16) }
    ensures { result ≡ verdict (open_tests book line settings) }
{
    if book.line(line).opened == Line::OPEN {
        return Err(Refusal::TAKEN);
    }
    if !line::settings_fit(settings) {
        return Err(Refusal::RANGE);
    }
    if book.taken(settings.identifier) {
        Err(Refusal::TAKEN)
    } else {
        Ok(())
    }
}

// May a line be opened? BOOK, RANGE for the line, TAKEN for the line, RANGE, TAKEN for the identifier.
pub fn may_open(book: Book, line: u8, settings: Settings) -> Result<(), Refusal>
    ensures { result ≡ verdict (open_order book line settings) }
{
    line_verdict(book, line)?;
    may_open_line(book, line, settings)
}

// May a line be closed? BOOK, RANGE for the line, NOLINE, ROOM for the slip.
pub fn may_close(book: Book, line: u8, space: usize) -> Result<(), Refusal>
    ensures { result ≡ verdict (close_order book line space) }
{
    open_line_verdict(book, line)?;
    if space < Slip::LENGTH {
        return Err(Refusal::ROOM);
    }
    Ok(())
}

// What closing and the mode calls ask before their own tests: BOOK, RANGE for the line, NOLINE.
pub fn open_line_verdict(book: Book, line: u8) -> Result<(), Refusal>
    ensures { result ≡ verdict (fit_book book ∷ line_number line ∷ must_be_open (line_of book line) ∷ []) }
{
    line_verdict(book, line)?;
    if book.line(line).opened != Line::OPEN {
        return Err(Refusal::NOLINE);
    }
    Ok(())
}
