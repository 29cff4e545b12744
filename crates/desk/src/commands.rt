// The calls at one gateway. Each leaves its book as the call says, and a refused one as it was.
use crate::Seat;
use crate::answer::Reply;
use crate::parse::Call;
use book::Book;
use ground::Refusal;
use line::Settings;
use words::Arguments;

impl Seat {
    // `fresh`: the store is zeros too, and lent whole.
    fn renew(&mut self) -> Reply {
        self.book = Book::fresh();
        self.store.fill(0);
        self.lent = Book::STORE;
        Reply::Done
    }

    // `lend COUNT`
    fn lend(&mut self, a: Arguments) -> Reply {
        self.lent = a.space(0, Book::STORE);
        Reply::Done
    }

    // `open LINE ID TYPE VBD RELAY TIME`
    fn open(&mut self, a: Arguments) -> Result<Reply, Refusal> {
        let settings = Settings {
            identifier: a.octet(1),
            kind: a.octet(2),
            vbd: a.flag(3),
            relay: a.flag(4),
        };
        let after = gateway::open(self.book, a.octet(0), settings, a.long(5))?;
        self.book = after.book;
        Ok(Reply::Done)
    }

    // `close LINE [SPACE]`
    fn close(&mut self, a: Arguments, octets: &mut [u8]) -> Result<Reply, Refusal> {
        let space = a.space(1, octets.len());
        let after = gateway::close(self.book, a.octet(0), &mut octets[..space])?;
        self.book = after.book;
        Ok(Reply::Octets(after.answer))
    }

    // `hear LINE MODE TIME`
    fn hear(&mut self, a: Arguments) -> Result<Reply, Refusal> {
        let after = gateway::hear(self.book, a.octet(0), a.octet(1), a.long(2))?;
        self.book = after.book;
        Ok(Reply::Heard(after.answer))
    }

    // `ask LINE MODE TIME`
    fn ask(&mut self, a: Arguments) -> Result<Reply, Refusal> {
        let after = gateway::ask(self.book, a.octet(0), a.octet(1), a.long(2))?;
        self.book = after.book;
        Ok(Reply::Mode(after.answer))
    }

    // `tick LINE TIME`
    fn tick(&mut self, a: Arguments) -> Result<Reply, Refusal> {
        let after = gateway::tick(self.book, a.octet(0), a.long(1))?;
        self.book = after.book;
        Ok(Reply::Due(after.answer))
    }

    // `held LINE CHANNEL`
    fn held(&self, a: Arguments) -> Result<Reply, Refusal> {
        Ok(Reply::Holds(gateway::held(self.book, a.octet(0), a.octet(1))?))
    }

    // `empty LINE CHANNEL [SPACE]`
    fn empty(&mut self, a: Arguments, octets: &mut [u8]) -> Result<Reply, Refusal> {
        let space = a.space(2, octets.len());
        let after = gateway::empty(self.book, a.octet(0), a.octet(1), &mut octets[..space])?;
        self.book = after.book;
        Ok(Reply::Octets(after.answer))
    }

    // `take LINE CHANNEL OCTETS`
    fn take(&mut self, a: Arguments, message: &[u8]) -> Result<Reply, Refusal> {
        let book = self.book;
        let after = gateway::take(book, self.lent_mut(), a.octet(0), a.octet(1), message)?;
        self.book = after.book;
        Ok(Reply::Done)
    }

    // `send LINE CHANNEL RANK [SPACE]`
    fn send(&mut self, a: Arguments, octets: &mut [u8]) -> Result<Reply, Refusal> {
        let space = a.space(3, octets.len());
        let after = gateway::send(
            self.book,
            self.lent(),
            a.octet(0),
            a.octet(1),
            a.octet(2),
            &mut octets[..space],
        )?;
        self.book = after.book;
        Ok(Reply::Octets(after.answer))
    }

    // `arrive OCTETS`
    fn arrive(&mut self, packet: &[u8]) -> Result<Reply, Refusal> {
        let book = self.book;
        let after = gateway::arrive(book, self.lent_mut(), packet)?;
        self.book = after.book;
        Ok(Reply::Done)
    }

    // `out LINE CHANNEL [SPACE]`
    fn hand_out(&mut self, a: Arguments, octets: &mut [u8]) -> Result<Reply, Refusal> {
        let space = a.space(2, octets.len());
        let after = gateway::hand_out(
            self.book,
            self.lent(),
            a.octet(0),
            a.octet(1),
            &mut octets[..space],
        )?;
        self.book = after.book;
        Ok(Reply::Octets(after.answer))
    }

    // Makes a call whose words are good.
    pub fn make(&mut self, call: Call, a: Arguments, octets: &mut [u8]) -> Result<Reply, Refusal> {
        match call {
            Call::Fresh => Ok(self.renew()),
            Call::Lend => Ok(self.lend(a)),
            Call::Open => self.open(a),
            Call::Hear => self.hear(a),
            Call::Ask => self.ask(a),
            Call::Tick => self.tick(a),
            Call::Held => self.held(a),
            Call::Close => self.close(a, octets),
            Call::Empty => self.empty(a, octets),
            Call::Take => self.take(a, a.octets(octets)),
            Call::Send => self.send(a, octets),
            Call::Arrive => self.arrive(a.octets(octets)),
            Call::HandOut => self.hand_out(a, octets),
        }
    }
}
