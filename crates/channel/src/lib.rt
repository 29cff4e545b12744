// What the two sides of a reliable channel share: its windows (RULES 3.2), how far a number lies past another (RULES 4.3, RULES 4.7),
// where a message lies (RULES 6.5), and which sizes fit (RULES 3.4). The sides are `sending` and `receiving`; octets are the matter of
// `store`, lines of `line`, packets of `packet`.
#![tactic(auto)]

ghost use Rattle.std.specs.Prelude.{◌≡◌, ◌+◌, ◌^◌, ◌<◌};
ghost use Rattle.channel.specs.Channel.{channel_of};
ghost use Rattle.channel.specs.Distance.{dist, place_of};

mod sizes;

pub use sizes::{size_fits, sizes_fit};

// What is settled of a channel before it is used.
#[derive(Clone, Copy)]
pub struct Channel {
    // How many messages may be under way: S - h is never over it.
    pub window: u32,
}

impl Channel {
    // The windows of channels 1 and 2.
    pub const WINDOW1: u32 = 32;

    pub const WINDOW2: u32 = 8;

    // Sequence numbers are counted modulo this.
    pub const MODULUS: u32 = 16384;

    // The 14 bits of a full number that a packet carries.
    pub const NUMBER: u32 = 0x3fff;

    // The most messages that a channel takes, and that it hands out.
    pub const CAP: u32 = 16777215;

    // The most octets that a message has.
    pub const LARGEST: u16 = 132;

    // The channel of a number: 1, or else 2. The definitions of lines and sides take any number, so it stays one; others are refused CHANNEL first.
    pub fn of(number: u8) -> Channel
        ensures { result ≡ channel_of number }
    {
        if number == 1 {
            Channel {
                window: Channel::WINDOW1,
            }
        } else {
            Channel {
                window: Channel::WINDOW2,
            }
        }
    }
}

// (n - h) mod 16,384. The only place with `%`: where a number is written, its 14 bits are taken by `NUMBER`.
pub fn distance(n: u32, h: u32) -> u32
    ensures { result ≡ dist n h }
{
    (n % Channel::MODULUS + (Channel::MODULUS - h % Channel::MODULUS)) % Channel::MODULUS
}

// The place of the message that is i past the one at place `origin`: origin + i, less the window where that is the window or more.
pub fn place(origin: u32, i: u32, window: u32) -> u32
    requires { origin + i < 2 ^ 32 }
    ensures { result ≡ place_of origin i window }
{
    let at = origin + i;
    if at < window { at } else { at - window }
}
