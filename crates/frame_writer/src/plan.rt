// How each subframe will be stored, and how many bits all of them take: known before anything is written, so that a
// frame too long for the output leaves it as it was.
ghost use Rattle.std.specs.Prelude.{◌≡◌, ◌≤◌};
ghost use Rattle.rfc9639.specs.HeaderCodes.{largest_block_size};
ghost use Rattle.frame_writer.specs.Private.{InRange, Plans, lane_choice, lane_for};

use super::lane::{lane_width, source_for};
use frame_limits::channels_of_code;
use rfc9639::{Candidate, FrameSetting};
use subframe_choice::Choice;

// The choice for subframe c.
fn choose_lane(samples: &[i32], set: FrameSetting, c: u32) -> Choice
    requires { (set.bits ≤ 24) × (set.size ≤ largest_block_size) }
    ensures { result ≡ lane_choice set.bits set.size samples.now (lane_for set c) }
{
    let source = source_for(samples, set, c);
    subframe_choice::choose(&source, lane_width(set.bits, source.lane))
}

// The choices for the subframes, and the bits of all of them. Choices past the last channel mean nothing.
#[derive(Clone, Copy)]
pub struct FramePlan {
    pub choices: [Choice; 8],
    pub bits: u64,
}

pub fn plan_frame(samples: &[i32], set: FrameSetting) -> FramePlan
    requires { InRange set }
    ensures { Plans set samples.now result.choices result.bits }
{
    let none = Choice {
        candidate: Candidate::Verbatim,
        bits: 0,
    };
    let mut choices = [none; 8];
    let mut bits: u64 = 0;
    for c in 0..channels_of_code(set.channels) {
        let choice = choose_lane(samples, set, c as u32);
        choices[c] = choice;
        bits += choice.bits;
    }
    FramePlan { choices, bits }
}
