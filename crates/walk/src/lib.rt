// One step of reading a whole input frame by frame, and the settings that a stream gives by its first frame. Whatever
// reads frame after frame (the programs, the exported function, the Rust binding's loop) takes this step. Taken from
// the first byte on, with the same settings, the steps give the definition's list of answers, with none skipped and
// none read twice (proofs/Walks.antt).
#![tactic(auto)]

ghost use Rattle.std.specs.Prelude.{◌≡◌};
ghost use Rattle.rfc9639.specs.FrameByFrame.{stream_settings};
ghost use Rattle.walk.specs.Steps.{Steps};

use error::Refusal;
use frame::Accepted;
use rfc9639::Settings;

// What was read at a place, and the next place: past an accepted frame, or the same place after a refusal.
#[derive(Clone, Copy, Debug, PartialEq, Eq)]
pub struct Step {
    pub answer: Result<Accepted, Refusal>,
    pub place: usize,
}

// Reads the frame at a place of the input, as `read_frame` reads the bytes from there on. Past the end there is nothing
// left to read.
pub fn read_next(s: &[u8], place: usize, set: Settings, samples: &mut [i32]) -> Step
    ensures { Steps s.now place set samples.old result samples.new }
{
    let start = place.min(s.len());
    let answer = frame::read_frame(&s[start..], set, samples);
    let consumed = answer.map_or(0, |f| f.consumed);
    Step {
        answer,
        place: place + consumed,
    }
}

// What a stream without a stream header says about itself: the size of its blocks is that of the first, whatever the
// blocking. It is unknown if the input does not start with a frame header.
pub fn stream_settings(s: &[u8]) -> Settings
    ensures { result ≡ stream_settings s.now }
{
    Settings {
        block: header::read_header(s).ok().map(|(h, _)| h.size),
        stream: None,
    }
}
