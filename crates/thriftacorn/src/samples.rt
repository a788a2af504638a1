// Access to the samples of a block, for other languages. A block is given by its channels and its samples per channel.
ghost use Rattle.std.specs.Prelude.{length};
ghost use Rattle.thriftacorn.specs.Exports.{ChannelV1, SampleV1, PairV1};

use super::answer::numbered;
use block::Block;

// Where a channel's samples start and where they end.
#[unsafe(no_mangle)]
pub extern "C" fn thriftacorn_channel_v1(
    samples: &[i32],
    channels: usize,
    size: usize,
    channel: usize,
    start: &mut usize,
    end: &mut usize,
) -> u8
    ensures { ChannelV1 (length samples.now) channels size channel result start.new end.new }
{
    let answer = block::channel(samples, Block { channels, size }, channel);
    let (number, (from, to)) = numbered(answer, (0, 0));
    *start = from;
    *end = to;
    number
}

// The sample at an index of a channel.
#[unsafe(no_mangle)]
pub extern "C" fn thriftacorn_sample_v1(
    samples: &[i32],
    channels: usize,
    size: usize,
    channel: usize,
    index: usize,
    value: &mut i32,
) -> u8
    ensures { SampleV1 samples.now channels size channel index result value.new }
{
    let answer = block::sample(samples, Block { channels, size }, channel, index);
    let (number, x) = numbered(answer, 0);
    *value = x;
    number
}

// The left and the right sample at an index, in a block of two channels.
#[unsafe(no_mangle)]
pub extern "C" fn thriftacorn_pair_v1(
    samples: &[i32],
    channels: usize,
    size: usize,
    index: usize,
    left: &mut i32,
    right: &mut i32,
) -> u8
    ensures { PairV1 samples.now channels size index result left.new right.new }
{
    let answer = block::pair(samples, Block { channels, size }, index);
    let (number, (x, y)) = numbered(answer, (0, 0));
    *left = x;
    *right = y;
    number
}
