// Reading the stream header, for other languages.
ghost use Rattle.thriftacorn.specs.Exports.{StreamHeaderV1};

use super::answer::numbered;
use rfc9639::{Md5, Sizes, StreamInfo};

const NO_SIZES: Sizes = Sizes {
    smallest: 0,
    largest: 0,
};

// What is reported of a refusal.
const NOTHING: StreamInfo = StreamInfo {
    blocks: NO_SIZES,
    frames: NO_SIZES,
    rate: 0,
    channels: 0,
    bits: 0,
    samples: 0,
    md5: Md5 { high: 0, low: 0 },
};

// Reads the stream header at the start of the bytes. Reported are how many bytes it takes, the samples of the smallest
// and of the largest block, the bytes of the shortest and of the longest frame, the rate, the channels, the bits, the
// samples of a channel in all, and the first and the last eight bytes of the MD5, each as a number whose first byte is
// the most significant.
#[unsafe(no_mangle)]
pub extern "C" fn thriftacorn_read_stream_header_v1(
    bytes: &[u8],
    consumed: &mut usize,
    smallest: &mut u32,
    largest: &mut u32,
    shortest: &mut u32,
    longest: &mut u32,
    rate: &mut u32,
    channels: &mut u32,
    bits: &mut u32,
    samples: &mut u64,
    high: &mut u64,
    low: &mut u64,
) -> u8
    ensures { StreamHeaderV1 bytes.now result consumed.new smallest.new largest.new
        shortest.new longest.new rate.new channels.new bits.new samples.new
        high.new low.new }
{
    let (number, (info, end)) = numbered(stream::read_stream_header(bytes), (NOTHING, 0));
    *consumed = end;
    *smallest = info.blocks.smallest;
    *largest = info.blocks.largest;
    *shortest = info.frames.smallest;
    *longest = info.frames.largest;
    *rate = info.rate;
    *channels = info.channels;
    *bits = info.bits;
    *samples = info.samples;
    *high = info.md5.high;
    *low = info.md5.low;
    number
}
