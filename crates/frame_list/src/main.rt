// Lists a FLAC file, or a card of bare frames, for people to read. The card is the file that the first argument names, or
// standard input if there is none or it is '-'. A stream header (fLaC) gets a line, and each frame after it to the end;
// then a line says how long the frames are, and a last one how many frames and samples there were, and how it ended.
//
// The last line starts with one of these words, from which a script can take its status:
//     ended:     the card ends after a frame
//     empty:     the card has no bytes, or none after its stream header
//     stopped:   something on the card is no frame, or no stream header: the refusal's number and its cause
//     unread:    the card could not be opened or read: the system's error number
//     limit:     a limit of this program ended the run, not the card
// Then comes 'frames N, samples M; ' (M is the sum of channels times block size, but at most 2^64 - 1).
//
// The card may have any length: it is read through a window that is refilled. A refusal that more bytes may change is
// reported only at the end of the card; any other is reported at once. The window makes no difference, which is proved:
// the frames start where the definition's stream header ends on all of the card's bytes (`Opens`), and the run lists what
// the definition's answers to all bytes from there on list (`Runs`). The size of the stream's blocks is that of the
// card's first; the bits and the rate that a frame leaves to the stream are those of the stream header.
#![tactic(auto)]

mod opening;
mod report;
mod window;

ghost use Rattle.std.specs.Prelude.{◌+◌, ◌*◌, ◌^◌, ◌<◌, ◌≤◌, ◌≡◌, length, take};
ghost use Rattle.std.specs.declared.ops.ControlFlow.TheVariants.{Break};
ghost use Rattle.frame_list.specs.declared.window.Rest.{Rest as RestOf};
ghost use Rattle.frame_list.specs.Listing.{with_frame, block_for, Lists};
ghost use Rattle.frame_list.specs.CardProgress.{Sound, Stays, Refills, Turns, Runs};

use error::{Need, Refusal};
use frame::Accepted;
use opening::Opening;
use report::NoCard;
use rfc9639::{Settings, StreamRecord};
use std::env::{Env, FillError};
use std::fs::File;
use std::io::Stdin;
use std::ops::ControlFlow;
use window::{Filled, Rest};

// How many bytes of the card are in memory at a time. Eight channels of 65,535 verbatim samples of 24 bits take at most
// 1,572,866.
pub const WINDOW: usize = 2097152;

// Room for eight channels of 65,535 samples, which no frame exceeds.
const ROOM: usize = 524280;

// The most bytes of a name that the system takes.
const LONGEST_NAME: usize = 4096;

// The system's error numbers of a name that is too long, and of one that is no text.
const ENAMETOOLONG: i32 = 36;

const EILSEQ: i32 = 84;

// What the card told so far: how many frames there were, how many samples they had in all channels and in each one, the
// sample rate, which the stream header gives or else the first frame that has one, the size of the stream's blocks,
// which the first frame gives, and what the stream header gives to all frames.
#[derive(Clone, Copy, Debug, Default, PartialEq, Eq)]
pub struct Totals {
    pub frames: u64,
    pub samples: u64,
    pub length: u64,
    pub rate: Option<u32>,
    pub block: Option<usize>,
    pub stream: Option<StreamRecord>,
}

impl Totals {
    // The totals with one more frame.
    fn with_frame(self, f: Accepted) -> Totals
        requires { f.channels * f.size < 2 ^ 64 }
        ensures { result ≡ with_frame self f.channels f.size f.rate }
    {
        Totals {
            frames: self.frames.saturating_add(1),
            samples: self.samples.saturating_add((f.channels * f.size) as u64),
            length: self.length.saturating_add(f.size as u64),
            rate: self.rate.or(f.rate),
            ..self
        }
    }
}

// How far the card has been read: the place on the card of the window's first byte, how many bytes the window holds,
// what follows them, and the totals of the frames before the window.
#[derive(Clone, Copy, Debug, PartialEq, Eq)]
pub struct Card {
    pub base: u64,
    pub held: usize,
    pub rest: Rest,
    pub totals: Totals,
}

impl Card {
    // The run is over at this place of the window.
    fn over<T>(self, place: usize, how: How) -> Turn<T>
        ensures { result ≡ Break (record { card = self; place = place; how = how }) }
    {
        ControlFlow::Break(Last {
            card: self,
            place,
            how,
        })
    }
}

// The frames in a window: the place after the last one, why no frame was read there, and the totals up to there.
#[derive(Clone, Copy, Debug, PartialEq, Eq)]
pub struct Listed {
    pub place: usize,
    pub refusal: Refusal,
    pub totals: Totals,
}

// How the run ended.
#[derive(Clone, Copy, Debug, PartialEq, Eq)]
pub enum How {
    // The card ends here, after a frame or in the middle of one.
    Ended(Refusal),
    // There is no frame here, whatever bytes follow.
    Refused(Refusal),
    // A read failed, with the system's error number.
    Unread(i32),
    // The bytes from here on fill the window without deciding the answer, and the card goes on.
    TooLong,
    // The card goes on past the places that 64 bits can number.
    TooFar,
}

// Where the run ended: the window, with the totals up to a place in it; that place; and how.
#[derive(Clone, Copy, Debug, PartialEq, Eq)]
pub struct Last {
    pub card: Card,
    pub place: usize,
    pub how: How,
}

// What a step of the run gives: something to go on with, or the end of the run.
pub type Turn<T> = ControlFlow<Last, T>;

// What a card is read from.
#[derive(Drop)]
pub enum Source {
    Input(Stdin),
    Named(File),
}

// The size of the stream's blocks: once it is known it stays; before, these bytes are the first of the card.
fn stream_block(bytes: &[u8], known: Option<usize>) -> Option<usize>
    ensures { result ≡ block_for known bytes.now }
{
    known.or_else(|| walk::stream_settings(bytes).block)
}

// Lists the frames that are complete within the bytes. The first byte is at `base` on the card.
fn list_frames(
    rt: &HostRuntime,
    bytes: &[u8],
    base: u64,
    before: Totals,
    samples: &mut [i32],
) -> Listed
    requires { base + length bytes.now < 2 ^ 64 }
    ensures { Lists bytes.now base before (length samples.old) result }
{
    let set = Settings {
        block: stream_block(bytes, before.block),
        stream: before.stream,
    };
    let mut place = 0;
    let mut totals = Totals {
        block: set.block,
        ..before
    };
    loop {
        let step = walk::read_next(bytes, place, set, samples);
        match step.answer {
            Ok(f) => {
                report::frame_line(rt, base + place as u64, f);
                totals = totals.with_frame(f);
                place = step.place;
            }
            Err(refusal) => {
                return Listed {
                    place,
                    refusal,
                    totals,
                };
            }
        }
    }
}

// What follows on the card when the window is full.
fn rest_after(source: &Source) -> Rest {
    window::fill_to(source, &mut [0u8; 1], 0, 1).rest
}

// What may be one frame fills the whole window, so `place` is 0 here.
fn full(card: Card, place: usize, rest: Rest) -> Turn<Card>
    ensures { Stays card place result }
{
    match rest {
        Rest::More => card.over(place, How::TooLong),
        Rest::Ended | Rest::Failed(_) => ControlFlow::Continue(Card { rest, ..card }),
    }
}

// Keeps what the window holds from a place on, and reads more of the card after it.
fn go_on(source: &Source, card: Card, place: usize, e: Refusal, window: &mut [u8]) -> Turn<Card>
    requires { Sound card (length window.old) × (place ≤ card.held) × (card.rest ≡ RestOf.More) }
    ensures { Refills window.old card place e result window.new }
{
    let room = window.len();
    let left = card.held - place;
    if left == room {
        return full(card, place, rest_after(source));
    }
    let base = card.base + place as u64;
    if u64::MAX - base < room as u64 {
        return card.over(place, How::TooFar);
    }
    window::shift(window, place, card.held);
    let Filled { held, rest } = window::fill_to(
        source,
        window,
        left,
        window::next_wanted(left, room),
    );
    ControlFlow::Continue(Card {
        base,
        held,
        rest,
        ..card
    })
}

// The frame at this place of the window is not complete.
fn wait(source: &Source, card: Card, place: usize, e: Refusal, window: &mut [u8]) -> Turn<Card>
    requires { Sound card (length window.old) × (place ≤ card.held) }
    ensures { Refills window.old card place e result window.new }
{
    match card.rest {
        Rest::More => go_on(source, card, place, e, window),
        Rest::Ended => card.over(place, How::Ended(e)),
        Rest::Failed(error) => card.over(place, How::Unread(error)),
    }
}

// Lists the frames in the window, and refills it for those that follow.
fn advance(
    rt: &HostRuntime,
    source: &Source,
    card: Card,
    window: &mut [u8],
    samples: &mut [i32],
) -> Turn<Card>
    requires { Sound card (length window.old) }
    ensures { Turns (length samples.old) window.old card result window.new }
{
    let Listed {
        place,
        refusal,
        totals,
    } = list_frames(rt, &window[..card.held], card.base, card.totals, samples);
    let read = Card { totals, ..card };
    match refusal.needs() {
        Need::Wait => wait(source, read, place, refusal, window),
        Need::Room | Need::Final => read.over(place, How::Refused(refusal)),
    }
}

// From where the frames start to where the run ends.
fn read_card(
    rt: &HostRuntime,
    source: &Source,
    start: Card,
    window: &mut [u8],
    samples: &mut [i32],
) -> Last
    requires { Sound start (length window.old) }
    ensures { Runs (length samples.old) start (take start.held window.old) result }
{
    let mut card = start;
    loop {
        match advance(rt, source, card, window, samples) {
            ControlFlow::Continue(next) => card = next,
            ControlFlow::Break(last) => return last,
        }
    }
}

// Writes the last line.
fn write_last_line(rt: &HostRuntime, last: Last)
    requires { (last.card.base + last.card.held < 2 ^ 64) × (last.place ≤ last.card.held) }
{
    let Last { card, place, how } = last;
    let place = match how {
        How::Unread(_) => card.held,
        _ => place,
    };
    report::last_line(rt, card.totals, card.base + place as u64, how);
}

// The same, where the run ended within the stream header.
fn write_header_over(rt: &HostRuntime, last: Last)
    requires { (last.card.base + last.card.held < 2 ^ 64) × (last.place ≤ last.card.held) }
{
    match last.how {
        How::Ended(e) | How::Refused(e) => report::header_refused(rt, e),
        How::Unread(_) | How::TooLong | How::TooFar => write_last_line(rt, last),
    }
}

// The stream header, if there is one, the frames and the lines after them. Here and below, the source, the window and the
// samples go side by side: in a struct of lent slices each clause would name them by a path.
fn list_card(rt: &HostRuntime, source: &Source, window: &mut [u8], samples: &mut [i32])
    requires { length window.old < 2 ^ 64 }
{
    match opening::read_opening(source, window) {
        ControlFlow::Continue(Opening { header, card }) => {
            if let Some(info) = header {
                report::stream_line(rt, card.base, info);
            }
            let last = read_card(rt, source, card, window, samples);
            report::length_line(rt, last.card.totals, header.map(|info| info.samples));
            write_last_line(rt, last);
        }
        ControlFlow::Break(last) => write_header_over(rt, last),
    }
}

// Turns the arrays into slices, away from the function that owns them.
fn list_into(
    rt: &HostRuntime,
    source: &Source,
    window: &mut [u8; WINDOW],
    samples: &mut [i32; ROOM],
) {
    list_card(rt, source, window, samples);
}

// Opens the card of this name. std names files by text alone, so any other name is refused.
fn open_card(rt: &HostRuntime, name: &[u8]) -> Result<Source, NoCard> {
    let Ok(text) = str::from_utf8(name) else {
        return Err(NoCard::Unopened(EILSEQ));
    };
    match File::open(rt, text) {
        Ok(file) => Ok(Source::Named(file)),
        Err(e) => Err(NoCard::Unopened(window::number_in(e))),
    }
}

// The card that the arguments name.
fn card_named(rt: &HostRuntime) -> Result<Source, NoCard> {
    let mut text = [0u8; LONGEST_NAME];
    if !matches!(rt.arg(2, &mut text), Err(FillError::NotPresent)) {
        return Err(NoCard::TwoNames);
    }
    match rt.arg(1, &mut text) {
        Ok(n) => match &text[..n] {
            b"-" => Ok(Source::Input(rt.stdin())),
            b"-h" | b"--help" => Err(NoCard::Help),
            [b'-', ..] => Err(NoCard::UnknownArgument),
            name => open_card(rt, name),
        },
        Err(FillError::NotPresent) => Ok(Source::Input(rt.stdin())),
        Err(FillError::TooLong) => Err(NoCard::Unopened(ENAMETOOLONG)),
    }
}

fn main(rt: HostRuntime) {
    let mut window = [0u8; WINDOW];
    let mut samples = [0i32; ROOM];
    match card_named(&rt) {
        Ok(source) => list_into(&rt, &source, &mut window, &mut samples),
        Err(why) => report::no_card(&rt, why),
    }
}
