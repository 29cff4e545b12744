// The streams: what one end of the lines sends to the other on one channel of one line. There are 16.
ghost use Rattle.std.specs.Prelude.{◌<◌};

use std::fmt;

// How many lines there are.
pub const LINES: u8 = 4;

// How many streams there are.
pub const STREAMS: usize = 16;

#[derive(Clone, Copy, PartialEq, Eq)]
pub enum End {
    Site,
    Office,
}

impl End {
    pub fn other(self) -> End {
        match self {
            End::Site => End::Office,
            End::Office => End::Site,
        }
    }
}

impl fmt::Display for End {
    fn fmt<W: fmt::Write>(&self, f: &mut fmt::Formatter<W>) -> fmt::Result {
        match self {
            End::Site => f.pad("site"),
            End::Office => f.pad("office"),
        }
    }
}

#[derive(Clone, Copy)]
pub enum Channel {
    One,
    Two,
}

impl Channel {
    // As the gateway numbers it.
    pub fn number(self) -> u8 {
        match self {
            Channel::One => 1,
            Channel::Two => 2,
        }
    }
}

#[derive(Clone, Copy)]
pub struct Stream {
    // The end that sends.
    pub from: End,
    pub line: u8,
    pub channel: Channel,
    ghost is_on_a_line: { line < 4 },
}

impl Stream {
    // What an end sends on a channel of a line.
    pub fn new(from: End, line: u8, channel: Channel) -> Stream
        requires { line < 4 }
    {
        Stream {
            from,
            line,
            channel,
        }
    }

    // The four streams of a line.
    pub fn of_line(line: u8) -> [Stream; 4]
        requires { line < 4 }
    {
        [
            Stream::new(End::Site, line, Channel::One),
            Stream::new(End::Office, line, Channel::One),
            Stream::new(End::Site, line, Channel::Two),
            Stream::new(End::Office, line, Channel::Two),
        ]
    }

    // Its number among all streams: first those of the site, each line by line.
    pub fn number(self) -> usize
        ensures { result < 16 }
    {
        self.from as usize * 8 + usize::from(self.line) * 2 + self.channel as usize
    }

    // The stream of the other end.
    pub fn back(self) -> Stream {
        Stream::new(self.from.other(), self.line, self.channel)
    }
}
