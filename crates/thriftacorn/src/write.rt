// Writing, for other languages.
ghost use Rattle.thriftacorn.specs.Exports.{WriteFrameV1, LongestV1};

use super::answer::numbered;

// Writes one frame.
#[tactic(auto, unfolding(rfc9639::specs::Write::unwritten))]
#[unsafe(no_mangle)]
pub extern "C" fn thriftacorn_write_frame_v1(
    samples: &[i32],
    channels: u32,
    bits: u32,
    blocking: u32,
    number: u64,
    size: usize,
    out: &mut [u8],
    length: &mut usize,
) -> u8
    ensures { WriteFrameV1 channels bits blocking number size samples.now out.old result length.new out.new }
{
    let answer = frame_writer::write_frame(samples, channels, bits, blocking, number, size, out);
    let (number, n) = numbered(answer, 0);
    *length = n;
    number
}

// The length in bytes that no frame with these settings exceeds, or 0 if the settings are refused. An output of that
// length never gets refusal 13.
#[unsafe(no_mangle)]
pub extern "C" fn thriftacorn_longest_v1(
    channels: u32,
    bits: u32,
    blocking: u32,
    number: u64,
    size: usize,
) -> usize
    ensures { LongestV1 channels bits blocking number size result }
{
    frame_limits::longest(channels, bits, blocking, number, size)
}
