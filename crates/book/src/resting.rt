// The identifiers that rest: the last sixteen closed (RULES 7.6), oldest first. Here is how one more goes to rest, and what BOOK asks of
// each of them (RULES 15.24). Which lines are open is said in lib.rt.
ghost use Rattle.std.specs.Prelude.{◌≡◌, ◌≤◌, take};
ghost use Rattle.book.specs.Resting.{all_span, rests, rested_in};

// The array of those that rest, its first n entries, once one more does; the oldest leaves it where it is full.
#[tactic(auto, using(crate::proofs::RestingLists::rested_few, crate::proofs::RestingLists::rested_full))]
pub fn with_one_more(mut resting: [u8; 16], n: u8, identifier: u8) -> [u8; 16]
    requires { n ≤ 16 }
    ensures { result ≡ rested_in resting (rests (take n resting) identifier) }
{
    if n < 16 {
        resting[n as usize] = identifier;
    } else {
        resting.rotate_left(1);
        resting[15] = identifier;
    }
    resting
}

// Is each identifier that rests one of 0 to 127?
pub fn all_in_span(resting: &[u8]) -> bool
    ensures { result ≡ all_span resting.now }
{
    resting.iter().all(|identifier| *identifier <= 127)
}
