// The start of the card: its stream header, if it has one (RFC 9639 sections 6 and 8). The header may be longer than the
// window: of a metadata block after the first only its head is looked at, and the rest is passed as it comes. What is
// found is what the definition finds on all of the card's bytes (specs/Opening.antt).
ghost use Rattle.std.specs.Prelude.{◌^◌, ◌<◌, ◌≤◌, ◌≡◌, length, take};
ghost use Rattle.frame_list.specs.CardProgress.{Sound};
ghost use Rattle.frame_list.specs.Opening.{told, Hops, Moves, Arrives, Passes, SkipTurns, Skips, Waits, Unstarted, StartTurns, Starts, Opens};

use crate::window::Rest;
use crate::{Card, How, Source, Totals, Turn, wait, window};
use error::Refusal;
use reading::Place;
use rfc9639::{StreamInfo, StreamRecord};
use std::ops::ControlFlow;

// The card, and where in its window the next metadata block starts, or, if `last`, the first frame.
#[derive(Clone, Copy, Debug, PartialEq, Eq)]
pub struct Skip {
    pub card: Card,
    pub pass: usize,
    pub last: bool,
}

// What a look at the window's metadata blocks leads to: more of them, or the frames.
#[derive(Clone, Copy, Debug, PartialEq, Eq)]
pub enum Passed {
    On(Skip),
    Frames(Card),
}

// What a card starts with: no stream header, or the mark and STREAMINFO, with the blocks after it still to be passed.
#[derive(Clone, Copy, Debug, PartialEq, Eq)]
pub enum Start {
    Bare(Card),
    Header(StreamInfo, Skip),
}

// What one look at the card's first bytes tells: nothing yet, or what it starts with.
#[derive(Clone, Copy, Debug, PartialEq, Eq)]
pub enum Look {
    On(Card),
    At(Start),
}

// The card where its frames start, and the stream header before them, if there is one.
#[derive(Clone, Copy, Debug, PartialEq, Eq)]
pub struct Opening {
    pub header: Option<StreamInfo>,
    pub card: Card,
}

// Passes all blocks whose heads are among the bytes, from a place on, unless that is after the last one (`done`). Gives
// the place after them, which may be past the bytes, and whether it is after the last block, where the frames start.
fn pass_heads(bytes: &[u8], start: usize, done: bool) -> Result<(usize, bool), Refusal>
    ensures { Hops bytes.now start done result }
{
    let mut pass = start;
    let mut last = done;
    while !last {
        match stream::read_block_head(bytes, Place { byte: pass, bit: 0 }) {
            Ok(((is_last, size), end)) => {
                pass = end.byte + size as usize;
                last = is_last;
            }
            Err(e) if e == Refusal::CutShort => return Ok((pass, false)),
            Err(e) => return Err(e),
        }
    }
    Ok((pass, true))
}

// Drops the bytes before the place from the window, as far as they are there, and reads more of the card.
fn refill(source: &Source, card: Card, pass: usize, last: bool, window: &mut [u8]) -> Turn<Skip>
    requires { Sound card (length window.old) }
    ensures { Moves window.old card pass last result window.new }
{
    let place = pass.min(card.held);
    let card = wait(source, card, place, Refusal::CutShort, window)?;
    ControlFlow::Continue(Skip {
        card,
        pass: pass - place,
        last,
    })
}

// The frames start at a place of the window: it becomes the window's first.
fn to_frames(card: Card, pass: usize, window: &mut [u8]) -> Turn<Card>
    requires { Sound card (length window.old) × (pass ≤ card.held) }
    ensures { Arrives window.old card pass result window.new }
{
    let base = card.base + pass as u64;
    if u64::MAX - base < window.len() as u64 {
        return card.over(pass, How::TooFar);
    }
    window::shift(window, pass, card.held);
    ControlFlow::Continue(Card {
        base,
        held: card.held - pass,
        ..card
    })
}

// The place of the next block, or of the first frame, is in the window or not.
fn pass_on(source: &Source, card: Card, pass: usize, last: bool, window: &mut [u8]) -> Turn<Passed>
    requires { Sound card (length window.old) }
    ensures { Passes window.old card pass last result window.new }
{
    ControlFlow::Continue(if last && pass <= card.held {
        Passed::Frames(to_frames(card, pass, window)?)
    } else {
        Passed::On(refill(source, card, pass, last, window)?)
    })
}

// Passes the blocks whose heads are in the window, and refills it for those that follow.
fn skip_turn(source: &Source, skip: Skip, window: &mut [u8]) -> Turn<Passed>
    requires { Sound skip.card (length window.old) }
    ensures { SkipTurns window.old skip result window.new }
{
    let card = skip.card;
    match pass_heads(&window[..card.held], skip.pass, skip.last) {
        Ok((pass, last)) => pass_on(source, card, pass, last, window),
        Err(e) => card.over(0, How::Refused(e)),
    }
}

// Passes the metadata blocks to where the frames start.
fn skip_blocks(source: &Source, start: Skip, window: &mut [u8]) -> Turn<Card>
    requires { Sound start.card (length window.old) × (start.card.base ≡ 0) × (0 < start.pass) }
    ensures { Skips (take start.card.held window.old) start result window.new }
{
    let mut skip = start;
    loop {
        match skip_turn(source, skip, window)? {
            Passed::On(next) => skip = next,
            Passed::Frames(card) => return ControlFlow::Continue(card),
        }
    }
}

// The first bytes are too few for the mark and STREAMINFO. Fewer than four are no mark, so a card that ends there is
// left to the reader of frames.
fn short_start(source: &Source, card: Card, window: &mut [u8]) -> Turn<Look>
    requires { Sound card (length window.old) }
    ensures { Waits window.old card result window.new }
{
    if card.rest != Rest::More && card.held < 4 {
        return ControlFlow::Continue(Look::At(Start::Bare(card)));
    }
    let card = wait(source, card, 0, Refusal::CutShort, window)?;
    ControlFlow::Continue(Look::On(card))
}

// The first bytes are no mark, or what follows it is no STREAMINFO, or they are too few.
fn no_start(source: &Source, card: Card, e: Refusal, window: &mut [u8]) -> Turn<Look>
    requires { Sound card (length window.old) }
    ensures { Unstarted window.old card e result window.new }
{
    match e {
        Refusal::CutShort => short_start(source, card, window),
        Refusal::NotSync => ControlFlow::Continue(Look::At(Start::Bare(card))),
        _ => card.over(0, How::Refused(e)),
    }
}

// Looks at the card's first bytes.
fn start_turn(source: &Source, card: Card, window: &mut [u8]) -> Turn<Look>
    requires { Sound card (length window.old) }
    ensures { StartTurns window.old card result window.new }
{
    match stream::read_stream_start(&window[..card.held]) {
        Ok((last, info, pass)) => {
            let skip = Skip { card, pass, last };
            ControlFlow::Continue(Look::At(Start::Header(info, skip)))
        }
        Err(e) => no_start(source, card, e, window),
    }
}

// The mark and STREAMINFO, if the card starts with a mark.
fn read_start(source: &Source, window: &mut [u8]) -> Turn<Start>
    requires { length window.old < 2 ^ 64 }
    ensures { Starts window.new result }
{
    let mut card = Card {
        base: 0,
        held: 0,
        rest: Rest::More,
        totals: Totals::default(),
    };
    loop {
        match start_turn(source, card, window)? {
            Look::On(next) => card = next,
            Look::At(start) => return ControlFlow::Continue(start),
        }
    }
}

// What the stream header tells of the frames. A rate of 0 tells nothing.
fn totals_of(info: StreamInfo) -> Totals
    ensures { result ≡ told info }
{
    let StreamInfo { bits, rate, .. } = info;
    Totals {
        rate: (rate != 0).then_some(rate),
        stream: Some(StreamRecord { bits, rate }),
        ..Totals::default()
    }
}

// Reads the card up to where its frames start.
pub fn read_opening(source: &Source, window: &mut [u8]) -> Turn<Opening>
    requires { length window.old < 2 ^ 64 }
    ensures { Opens window.new result }
{
    match read_start(source, window)? {
        Start::Bare(card) => ControlFlow::Continue(Opening { header: None, card }),
        Start::Header(info, skip) => {
            let card = skip_blocks(source, skip, window)?;
            ControlFlow::Continue(Opening {
                header: Some(info),
                card: Card {
                    totals: totals_of(info),
                    ..card
                },
            })
        }
    }
}
