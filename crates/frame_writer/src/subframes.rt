// The subframes, one after the other, each in the way planned for it.
ghost use Rattle.std.specs.Prelude.{◌≤◌};
ghost use Rattle.rfc9639.specs.HeaderCodes.{largest_block_size};
ghost use Rattle.rfc9639.specs.Write.{subframes_bits};
ghost use Rattle.bit_writer.specs.PenWrites.{Appends};
ghost use Rattle.frame_writer.specs.Private.{InRange, LaneChoices, coded_lane, lane_for};

use super::lane::{lane_width, source_for};
use bit_writer::BitWriter;
use frame_limits::channels_of_code;
use rfc9639::{Candidate, FrameSetting};
use subframe_choice::Choice;

// Subframe c.
fn write_lane(
    samples: &[i32],
    set: FrameSetting,
    c: u32,
    candidate: Candidate,
    writer: &mut BitWriter,
)
    requires { (set.bits ≤ 24) × (set.size ≤ largest_block_size) }
    ensures { Appends (coded_lane candidate set.bits set.size samples.now (lane_for set c)) writer.old writer.new }
{
    let source = source_for(samples, set, c);
    let width = lane_width(set.bits, source.lane);
    subframe_writer::write_subframe(&source, width, candidate, writer);
}

pub fn write_subframes(
    samples: &[i32],
    set: FrameSetting,
    choices: [Choice; 8],
    writer: &mut BitWriter,
)
    requires { InRange set × LaneChoices set samples.now choices }
    ensures { Appends (subframes_bits set samples.now) writer.old writer.new }
{
    for c in 0..channels_of_code(set.channels) {
        write_lane(samples, set, c as u32, choices[c].candidate, writer);
    }
}
