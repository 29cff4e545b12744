// The words of an answer.
ghost use Rattle.std.specs.Prelude.{Some};
ghost use Rattle.words.specs.Answer.{numbers_said, refusal_said};
ghost use Rattle.words.specs.Digits.{hexadecimal};

use ground::Refusal;
use std::fmt;

// Octets in hexadecimal, `-` for none.
#[derive(Clone, Copy)]
pub struct Hexadecimal<'a>(pub &'a [u8]);

impl fmt::Display for Hexadecimal<'_> {
    ghost output = { λ octets. Some (hexadecimal octets.0.now) };

    #[tactic(auto, unfolding(crate::specs::Digits::hexadecimal))]
    fn fmt<W: fmt::Write>(&self, f: &mut fmt::Formatter<W>) -> fmt::Result {
        if self.0.is_empty() {
            return f.write_str("-");
        }
        for &octet in self.0 {
            write!(f, "{octet:02X}")?;
        }
        Ok(())
    }
}

// `ok`, and numbers.
#[derive(Clone, Copy)]
pub struct Numbers<'a>(pub &'a [u64]);

impl fmt::Display for Numbers<'_> {
    ghost output = { λ numbers. Some (numbers_said numbers.0.now) };

    #[tactic(auto, unfolding(crate::specs::Answer::numbers_said))]
    fn fmt<W: fmt::Write>(&self, f: &mut fmt::Formatter<W>) -> fmt::Result {
        f.write_str("ok")?;
        for number in self.0 {
            write!(f, " {number}")?;
        }
        Ok(())
    }
}

// A refusal: its number and its name.
#[derive(Clone, Copy)]
pub struct Refused(pub Refusal);

impl fmt::Display for Refused {
    ghost output = { λ refused. Some (refusal_said refused.0) };

    fn fmt<W: fmt::Write>(&self, f: &mut fmt::Formatter<W>) -> fmt::Result {
        write!(f, "no {} {}", u8::from(self.0), self.0)
    }
}
