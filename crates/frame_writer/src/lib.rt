// The added writer: one frame from lent samples (document 01, "The added writer"; RFC 9639 section 9). It answers on
// every argument, and its answer and the output that it leaves are those of the definition's `write`. That the reader
// reads such a frame back, and how long it is at most, are theorems about the definition (crates readback and rfc9639).
#![tactic(auto)]

mod fitting;
mod footer;
mod lane;
mod plan;
mod subframes;

ghost use Rattle.std.specs.Prelude.{◌≡◌, ◌++◌, ◌+◌, ◌/◌, ◌^◌, ◌≤◌, length, drop};
ghost use Rattle.rfc9639.specs.Write.{header_bits, frame_bytes, write};
ghost use Rattle.frame_writer.specs.Private.{InRange, LaneChoices};
ghost use Rattle.frame_writer.specs.Outcomes.{outcome, setting_of};

use error::Refusal;
use fitting::all_fit;
use footer::write_footer;
use frame_limits::is_allowed;
use plan::{FramePlan, plan_frame};
use rfc9639::FrameSetting;
use subframe_choice::Choice;
use subframes::write_subframes;

// The length of a frame: the header's bytes, those that hold the subframes' bits, and two for the CRC-16.
fn frame_length(set: FrameSetting, bits: u64) -> usize
    requires { bits ≤ 2 ^ 32 }
    ensures { result ≡ length (header_bits set) / 8 + (bits + 7) / 8 + 2 }
{
    header_writer::header_length(set) + ((bits + 7) / 8) as usize + 2
}

// Writes the frame into an output that has room for it.
fn write_planned(samples: &[i32], set: FrameSetting, choices: [Choice; 8], out: &mut [u8])
    requires { InRange set × LaneChoices set samples.now choices × (length (frame_bytes set samples.now) ≤ length out.old) }
    ensures { out.new ≡ frame_bytes set samples.now ++ drop (length (frame_bytes set samples.now)) out.old }
{
    let mut writer = header_writer::write_header(set, out);
    write_subframes(samples, set, choices, &mut writer);
    write_footer(&mut writer);
}

// Writes a frame of samples that stand channel after channel, and gives its length in bytes. A refusal leaves the output
// as it was.
pub fn write_frame(
    samples: &[i32],
    channels: u32,
    bits: u32,
    blocking: u32,
    number: u64,
    size: usize,
    out: &mut [u8],
) -> Result<usize, Refusal>
    ensures { outcome result out.new ≡ write (setting_of channels bits blocking number size) samples.now out.old }
{
    let set = FrameSetting {
        channels,
        bits,
        blocking,
        number,
        size,
    };
    if !is_allowed(set, samples.len()) {
        return Err(Refusal::BadArgument);
    }
    if !all_fit(samples, bits) {
        return Err(Refusal::SampleRange);
    }
    let plan = plan_frame(samples, set);
    let length = frame_length(set, plan.bits);
    if out.len() < length {
        return Err(Refusal::OutputRoom);
    }
    write_planned(samples, set, plan.choices, out);
    Ok(length)
}
