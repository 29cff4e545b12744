// A gateway's book, by value: four lines (RULES 1.1), and the identifiers of the last sixteen that were closed (RULES 7.6). Here is what
// BOOK asks of it (RULES 13.18), how a packet's line is found (RULES 4.1), what a line's closing leaves (RULES 7.5), and where each line's
// part of the store begins (RULES 6.4). What the other calls do to a line is in `line`, `relay`, `writing` and `arriving`.
#![tactic(auto)]

ghost use Rattle.std.specs.Prelude.{◌≡◌, true, ◌≤◌, ◌<◌};
ghost use Rattle.owed.specs.Owed.{no_twice};
ghost use Rattle.book.specs.Book.{fresh_book, line_of, with_line, resting_of, identifiers_of, lines_fit, book_fits, owner_of, taken};
ghost use Rattle.book.specs.Resting.{all_span};
ghost use Rattle.book.specs.Closing.{closed_at};
ghost use Rattle.book.specs.Parts.{part_start};

use line::Line;
pub use seen::Seen;

mod resting; // resting.rt: the identifiers that rest
mod seen; // seen.rt: which identifiers were seen

#[repr(C)]
#[derive(Clone, Copy)]
pub struct Book {
    pub lines: [Line; 4],
    // The identifiers that rest, oldest first; what stands after them is not read. An array and its count, because a book has no heap.
    pub resting: [u8; 16],
    // How many rest. At most 16.
    pub rested: u8,
}

impl Book {
    // How many octets a lent store has at the least: four lines' parts.
    pub const STORE: usize = 42240;

    // The octet of the store that a line's part begins at.
    #[tactic(auto, using(crate::proofs::Parts::start_is))]
    pub fn part_start(self, i: u8) -> usize
        requires { i < 4 }
        ensures { result ≡ part_start self i }
    {
        i as usize * Line::PART
    }

    // Four closed lines, and nothing rests.
    pub fn fresh() -> Book
        ensures { result ≡ fresh_book }
    {
        let closed = Line::closed();
        let lines = [closed; 4];
        let resting = [0u8; 16];
        Book {
            lines,
            resting,
            rested: 0,
        }
    }

    // Line i. Constant places let the compiler leave the book where it is.
    pub fn line(self, i: u8) -> Line
        requires { i < 4 }
        ensures { result ≡ line_of self i }
    {
        if i == 0 {
            return self.lines[0];
        }
        if i == 1 {
            return self.lines[1];
        }
        if i == 2 {
            return self.lines[2];
        }
        self.lines[3]
    }

    // The book with that line anew.
    pub fn with_line(self, i: u8, line: Line) -> Book
        requires { i < 4 }
        ensures { result ≡ with_line self i line }
    {
        let mut next = self;
        next.lines[i as usize] = line;
        next
    }

    // The open line that has the identifier, if there is one.
    pub fn owner_of(self, identifier: u8) -> Option<u8>
        ensures { result ≡ owner_of self identifier }
    {
        let has_it = |line: &Line| line.opened == Line::OPEN && line.identifier == identifier;
        let i = self.lines.iter().position(has_it)?;
        Some(i as u8)
    }

    // The identifiers that rest, oldest first.
    fn resting(&self) -> &[u8]
        requires { self.now.rested ≤ 16 }
        ensures { result.now ≡ resting_of self.now }
    {
        &self.resting[..self.rested as usize]
    }

    // Is the identifier open on a line, or resting?
    #[tactic(auto, using(crate::proofs::Walks::member_any, crate::proofs::OneOwner::taken_is))]
    pub fn taken(self, identifier: u8) -> bool
        requires { self.rested ≤ 16 }
        ensures { result ≡ taken self identifier }
    {
        self.owner_of(identifier).is_some() || self.resting().contains(&identifier)
    }

    // The book once line i is closed: its record is as in a fresh book, and its identifier rests.
    #[tactic(auto, using(crate::proofs::RestingLists::rests_count), unfolding(crate::specs::Closing::closed_at))]
    pub fn closed_at(self, i: u8) -> Book
        requires { (i < 4) × (self.rested ≤ 16) }
        ensures { result ≡ closed_at self i }
    {
        let identifier = self.lines[i as usize].identifier;
        let mut next = self;
        next.lines[i as usize] = Line::closed();
        next.resting = resting::with_one_more(self.resting, self.rested, identifier);
        next.rested = (self.rested + 1).min(16);
        next
    }

    // Does each line meet what BOOK asks of it? `all` would copy what each line owes once more.
    #[tactic(auto, using(crate::proofs::Turns::fitting))]
    fn lines_fit(&self) -> bool
        ensures { result ≡ lines_fit self.now.lines }
    {
        for line in &self.lines {
            if !line.fits() {
                return false;
            }
        }
        true
    }

    // Is no identifier there twice, among the open lines and those that rest?
    #[tactic(auto, using(crate::proofs::Turns::sightings), unfolding(crate::specs::Book::open_in))]
    fn each_once(&self) -> bool
        requires lines { lines_fit self.now.lines ≡ true }
        requires few { self.now.rested ≤ 16 }
        requires spans { all_span (resting_of self.now) ≡ true }
        ensures { result ≡ no_twice (identifiers_of self.now) }
    {
        let mut seen = Seen::none();
        for line in &self.lines {
            if line.opened == Line::OPEN && !seen.note(line.identifier) {
                return false;
            }
        }
        for identifier in self.resting() {
            if !seen.note(*identifier) {
                return false;
            }
        }
        true
    }

    // What BOOK asks.
    #[tactic(auto, unfolding(crate::specs::Book::book_fits))]
    pub fn fits(self) -> bool
        ensures { result ≡ book_fits self }
    {
        self.lines_fit()
            && self.rested <= 16
            && resting::all_in_span(self.resting())
            && self.each_once()
    }
}
