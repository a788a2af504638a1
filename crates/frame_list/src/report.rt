// The lines that the program writes: one for a stream header, one for each frame, one for the length of the frames, and a
// last one that says how it ended. Each is written at once.
use crate::{How, Totals, WINDOW};
use error::Refusal;
use frame::Accepted;
use rfc9639::{Sizes, StreamInfo};
use std::fmt;

// Writes a line. If standard output does not take it, the run goes on.
fn write_line(rt: &HostRuntime, line: impl fmt::Display + Drop) {
    let _ = rt.println(line);
}

// The smallest and the largest of some sizes.
#[derive(Drop)]
struct Span(Sizes);

impl fmt::Display for Span {
    fn fmt<W: fmt::Write>(&self, f: &mut fmt::Formatter<W>) -> fmt::Result {
        let Sizes { smallest, largest } = self.0;
        write!(f, "{smallest} to {largest}")
    }
}

// Writes the stream header's line; `at` is the place after it.
pub fn stream_line(rt: &HostRuntime, at: u64, info: StreamInfo) {
    write_line(
        rt,
        format_args!(
            "stream header to byte {at}: rate {}, channels {}, bits {}, samples {}, blocks {}, frames {} bytes, MD5 {:016x}{:016x}",
            info.rate,
            info.channels,
            info.bits,
            info.samples,
            Span(info.blocks),
            Span(info.frames),
            info.md5.high,
            info.md5.low
        ),
    );
}

// What a frame or its stream gives, or that neither does.
#[derive(Drop)]
struct Given<T>(Option<T>);

impl<T: fmt::Display> fmt::Display for Given<T> {
    fn fmt<W: fmt::Write>(&self, f: &mut fmt::Formatter<W>) -> fmt::Result {
        match &self.0 {
            Some(value) => write!(f, "{value}"),
            None => write!(f, "unknown"),
        }
    }
}

// Writes a frame's line; `at` is its place on the card, where the first sample of each frame is always known.
pub fn frame_line(rt: &HostRuntime, at: u64, f: Accepted) {
    write_line(
        rt,
        format_args!(
            "frame at byte {at}, length {}, first sample {}, channels {}, bits {}, rate {}, block size {}",
            f.consumed,
            Given(f.first),
            f.channels,
            f.bits,
            Given(f.rate),
            f.size
        ),
    );
}

// How long the frames are, in samples of a channel and in seconds, rounded down.
#[derive(Drop)]
struct Length(Totals);

impl fmt::Display for Length {
    fn fmt<W: fmt::Write>(&self, f: &mut fmt::Formatter<W>) -> fmt::Result {
        let Totals { length, rate, .. } = self.0;
        write!(f, "length: {length} samples of a channel, ")?;
        let Some(rate) = rate.filter(|rate| *rate != 0) else {
            return write!(f, "rate unknown");
        };
        let rate = u64::from(rate);
        let thousandths = length % rate * 1000 / rate;
        write!(
            f,
            "{}.{thousandths:03} seconds at {rate} hertz",
            length / rate
        )
    }
}

// What the stream header says of the length. 0 says that its writer did not know.
#[derive(Drop)]
struct Said {
    samples: u64,
    length: u64,
}

impl fmt::Display for Said {
    fn fmt<W: fmt::Write>(&self, f: &mut fmt::Formatter<W>) -> fmt::Result {
        let Said { samples, length } = *self;
        if samples == 0 {
            return write!(f, "STREAMINFO does not say how many");
        }
        let verdict = if samples == length {
            "agrees"
        } else {
            "differs"
        };
        write!(f, "STREAMINFO says {samples}, which {verdict}")
    }
}

// Writes the line of the length, unless there is neither a frame nor a stream header. `said` is what the stream header
// says, if there is one.
pub fn length_line(rt: &HostRuntime, t: Totals, said: Option<u64>) {
    match said {
        Some(samples) => {
            let length = t.length;
            write_line(
                rt,
                format_args!("{}; {}", Length(t), Said { samples, length }),
            );
        }
        None if t.frames == 0 => {}
        None => write_line(rt, Length(t)),
    }
}

impl fmt::Display for Totals {
    fn fmt<W: fmt::Write>(&self, f: &mut fmt::Formatter<W>) -> fmt::Result {
        let Totals {
            frames,
            samples,
            ..
        } = *self;
        write!(f, "frames {frames}, samples {samples}")
    }
}

// Why a stream header is refused, in words: three of the causes, two of them in words of their own.
#[derive(Drop)]
struct HeaderCause(Refusal);

impl fmt::Display for HeaderCause {
    fn fmt<W: fmt::Write>(&self, f: &mut fmt::Formatter<W>) -> fmt::Result {
        match self.0 {
            Refusal::Reserved => write!(f, "a forbidden block type"),
            Refusal::BadShape => write!(
                f,
                "the first block is no STREAMINFO of 34 bytes with at least 4 bits a sample"
            ),
            e => write!(f, "{e}"),
        }
    }
}

// The system's error number, which is never negative, and what the usual ones mean.
#[derive(Drop)]
struct SystemError(i32);

impl fmt::Display for SystemError {
    fn fmt<W: fmt::Write>(&self, f: &mut fmt::Formatter<W>) -> fmt::Result {
        let number = self.0.max(0);
        write!(f, "error {number}")?;
        match number {
            2 => write!(f, ", there is no such file"),
            13 => write!(f, ", it may not be read"),
            21 => write!(f, ", it is a directory"),
            _ => Ok(()),
        }
    }
}

// The last line: how the run ended, the totals, and the place on the card.
#[derive(Drop)]
struct Ending {
    how: How,
    totals: Totals,
    at: u64,
}

impl Ending {
    // The word that it starts with.
    fn word(&self) -> &'static str {
        match self.how {
            How::Ended(Refusal::NothingLeft) if self.totals.frames == 0 => "empty",
            How::Ended(Refusal::NothingLeft) => "ended",
            How::Refused(Refusal::NoRoom) | How::TooLong | How::TooFar => "limit",
            How::Ended(_) | How::Refused(_) => "stopped",
            How::Unread(_) => "unread",
        }
    }
}

impl fmt::Display for Ending {
    fn fmt<W: fmt::Write>(&self, f: &mut fmt::Formatter<W>) -> fmt::Result {
        let Ending { how, totals, at } = *self;
        write!(f, "{}: {totals}; ", self.word())?;
        match how {
            How::Ended(Refusal::NothingLeft) if totals.frames != 0 => {
                write!(f, "the card ends after a frame, at byte {at}")
            }
            How::Ended(Refusal::NothingLeft) if at == 0 => write!(f, "the card has no bytes"),
            How::Ended(Refusal::NothingLeft) => {
                write!(f, "the card ends after its stream header, at byte {at}")
            }
            How::Refused(Refusal::NoRoom) => write!(
                f,
                "the frame at byte {at} has more samples than this program has room for"
            ),
            How::Ended(e) | How::Refused(e) => write!(f, "at byte {at}: {}, {e}", u8::from(e)),
            How::Unread(error) => write!(
                f,
                "the card could not be read after byte {at}: {}",
                SystemError(error)
            ),
            How::TooLong => write!(
                f,
                "what stands at byte {at} is longer than this program's window of {WINDOW} bytes"
            ),
            How::TooFar => write!(f, "this program counts no further than byte {at}"),
        }
    }
}

// Writes the last line.
pub fn last_line(rt: &HostRuntime, totals: Totals, at: u64, how: How) {
    write_line(rt, Ending { how, totals, at });
}

// The stream header is refused, or the card ends within it. No frame was read.
pub fn header_refused(rt: &HostRuntime, e: Refusal) {
    let totals = Totals::default();
    write_line(
        rt,
        format_args!(
            "stopped: {totals}; in the stream header at byte 0: {}, {}",
            u8::from(e),
            HeaderCause(e)
        ),
    );
}

// Why no card is read.
#[derive(Clone, Copy, Debug, PartialEq, Eq)]
pub enum NoCard {
    // The argument asks how the program is called.
    Help,
    // More than one name was given.
    TwoNames,
    // The argument starts with '-' and is none that this program knows.
    UnknownArgument,
    // The card could not be opened, with the system's error number.
    Unopened(i32),
}

impl fmt::Display for NoCard {
    fn fmt<W: fmt::Write>(&self, f: &mut fmt::Formatter<W>) -> fmt::Result {
        const NOTHING: &str = "unread: frames 0, samples 0";
        match *self {
            NoCard::Help => write!(
                f,
                "usage: frame_list [FILE | - | --help]\nLists the stream header and the frames of a FLAC file, or of a card of bare frames: of FILE, or of standard input."
            ),
            NoCard::TwoNames => write!(f, "{NOTHING}; more than one card is named"),
            NoCard::UnknownArgument => write!(
                f,
                "{NOTHING}; unknown argument; --help lists those that there are"
            ),
            NoCard::Unopened(error) => write!(
                f,
                "{NOTHING}; the card could not be opened: {}",
                SystemError(error)
            ),
        }
    }
}

// Writes why no card is read.
pub fn no_card(rt: &HostRuntime, why: NoCard) {
    write_line(rt, why);
}
