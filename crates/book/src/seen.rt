// The identifiers that were seen, one after another: each leaves a mark, and finds its own where it comes again.
ghost use Rattle.std.specs.Prelude.{◌≡◌, ◌<◌, eqb, get_or, set};
ghost use Rattle.book.specs.Marks.{none};

#[derive(Clone, Copy)]
pub struct Seen {
    // 1 for each identifier that was seen, 0 for the others.
    pub marks: [u8; 128],
}

impl Seen {
    // None was seen.
    pub(crate) fn none() -> Seen
        ensures { result.marks ≡ none }
    {
        Seen { marks: [0; 128] }
    }

    // The identifier is seen. Is it new?
    pub(crate) fn note(&mut self, identifier: u8) -> bool
        requires { identifier < 128 }
        ensures new { result ≡ eqb (get_or self.old.marks identifier 0) 0 }
        ensures marked { self.new.marks ≡ set self.old.marks identifier 1 }
    {
        let at = identifier as usize;
        let new = self.marks[at] == 0;
        self.marks[at] = 1;
        new
    }
}
