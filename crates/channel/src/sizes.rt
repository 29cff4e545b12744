// The sizes of the messages that lie in a window's places: what BOOK asks of them, on either side (RULES 15.15).
ghost use Rattle.std.specs.Prelude.{◌≡◌, ◌^◌, ◌≤◌, ◌<◌};
ghost use Rattle.places.specs.Places.{mask_of, widest};
ghost use Rattle.channel.specs.Sizes.{message_fits, sizes_fit};

use crate::place;
use places::Places;

// Has a message 1 to `largest` octets?
pub fn size_fits(size: u16, largest: u16) -> bool
    ensures { result ≡ message_fits largest size }
{
    (1..=largest).contains(&size)
}

// Has each message of the set, the oldest of which lies at place `origin`, 1 to `largest` octets? Only the places of its offsets are looked
// at, and nothing past the highest.
pub fn sizes_fit(
    sizes: [u16; Places::WIDEST],
    set: Places,
    origin: u32,
    window: u32,
    largest: u16,
) -> bool
    requires { (origin < window) × (window ≤ widest) × (mask_of set < 2 ^ window) }
    ensures { result ≡ sizes_fit window largest sizes (mask_of set) origin }
{
    // By hand, so that nothing past the highest offset is looked at: a `for` over the window was slower where few are held.
    let mut rest = set;
    let mut i = 0;
    while !rest.empty() {
        if rest.has(0) && !size_fits(sizes[place(origin, i, window) as usize], largest) {
            return false;
        }
        rest = rest.dropped(1);
        i += 1;
    }
    true
}
