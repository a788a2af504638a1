// Reading frames, for other languages: the frame at the start of the bytes, or the one at a place, which then moves past
// it. The functions of version 3 take what is known of the stream, and report the rate. Those of version 2 take the size
// of its blocks alone. Those of version 1 take that size from the frame that they read, so they say of a first sample
// what document 01 says. All of them are `read_at`, with other settings, or without a part of what it reports.
ghost use Rattle.std.specs.Prelude.{◌≡◌, drop};
ghost use Rattle.rfc9639.specs.FrameByFrame.{stream_settings};
ghost use Rattle.thriftacorn.specs.Exports.{given_of, settings_with, ReadFrameV1, ReadFrameV2, ReadFrameV3, ReadNextV1, ReadNextV2, ReadNextV3, StreamBlockV1};

use super::answer::numbered;
use frame::Accepted;
use rfc9639::{Settings, StreamRecord};

// What is reported of a refusal.
const NOTHING: Accepted = Accepted {
    consumed: 0,
    first: None,
    rate: None,
    channels: 0,
    bits: 0,
    size: 0,
};

// Reads the frame at a place of the bytes, moves the place past it, and stores what is reported through the references.
// A refusal leaves the place as it was.
#[tactic(auto, unfolding(rfc9639::specs::Read::refusal))]
fn read_at(
    bytes: &[u8],
    place: &mut usize,
    set: Settings,
    samples: &mut [i32],
    consumed: &mut usize,
    known: &mut u32,
    first: &mut u64,
    rated: &mut u32,
    rate: &mut u32,
    channels: &mut usize,
    bits: &mut u32,
    size: &mut usize,
) -> u8
    ensures { ReadNextV3 bytes.now place.old set samples.old result place.new consumed.new
        known.new first.new rated.new rate.new channels.new bits.new size.new samples.new }
{
    let step = walk::read_next(bytes, *place, set, samples);
    *place = step.place;
    let (number, f) = numbered(step.answer, NOTHING);
    *consumed = f.consumed;
    *known = u32::from(f.first.is_some());
    *first = f.first.unwrap_or(0);
    *rated = u32::from(f.rate.is_some());
    *rate = f.rate.unwrap_or(0);
    *channels = f.channels;
    *bits = f.bits;
    *size = f.size;
    number
}

// What a flag gives: nothing where it is 0, and `value` where it is 1. For another flag it is what no stream has, so
// that reading refuses it.
#[tactic(auto, unfolding(crate::specs::Exports::given_of))]
fn given_of<T: Copy>(flag: u32, value: T, impossible: T) -> Option<T>
    ensures { result ≡ given_of flag value impossible }
{
    match flag {
        0 => None,
        1 => Some(value),
        _ => Some(impossible),
    }
}

// The settings that two flags give: with or without the size of the stream's blocks, and its record.
#[tactic(auto, unfolding(crate::specs::Exports::settings_with, crate::specs::Exports::block_of, crate::specs::Exports::record_of))]
fn settings_with(given: u32, size: usize, streamed: u32, bits: u32, rate: u32) -> Settings
    ensures { result ≡ settings_with given size streamed bits rate }
{
    Settings {
        block: given_of(given, size, 0),
        stream: given_of(
            streamed,
            StreamRecord { bits, rate },
            StreamRecord { bits: 0, rate: 0 },
        ),
    }
}

// What the stream that starts at a place of the bytes says about itself. Past the end it says nothing.
fn settings_at(bytes: &[u8], place: usize) -> Settings
    ensures { result ≡ stream_settings (drop place bytes.now) }
{
    walk::stream_settings(&bytes[place.min(bytes.len())..])
}

// Reads the frame at the start of the bytes. The size of the stream's blocks is the frame's own.
#[unsafe(no_mangle)]
pub extern "C" fn thriftacorn_read_frame_v1(
    bytes: &[u8],
    samples: &mut [i32],
    consumed: &mut usize,
    first: &mut u64,
    channels: &mut usize,
    bits: &mut u32,
    size: &mut usize,
) -> u8
    ensures { ReadFrameV1 bytes.now samples.old result consumed.new first.new
        channels.new bits.new size.new samples.new }
{
    thriftacorn_read_next_v1(
        bytes, &mut 0, samples, consumed, first, channels, bits, size,
    )
}

// Reads the frame at a place of the bytes, and moves the place past it. A refusal leaves the place as it was. The size
// of the stream's blocks is the frame's own.
#[unsafe(no_mangle)]
pub extern "C" fn thriftacorn_read_next_v1(
    bytes: &[u8],
    place: &mut usize,
    samples: &mut [i32],
    consumed: &mut usize,
    first: &mut u64,
    channels: &mut usize,
    bits: &mut u32,
    size: &mut usize,
) -> u8
    ensures { ReadNextV1 bytes.now place.old samples.old result place.new consumed.new
        first.new channels.new bits.new size.new samples.new }
{
    let own = settings_at(bytes, *place);
    read_at(
        bytes, place, own, samples, consumed, &mut 0, first, &mut 0, &mut 0, channels, bits, size,
    )
}

// Reads the frame at the start of the bytes, with the size of the stream's blocks (1, and the size) or without (0).
#[unsafe(no_mangle)]
pub extern "C" fn thriftacorn_read_frame_v2(
    bytes: &[u8],
    given: u32,
    block: usize,
    samples: &mut [i32],
    consumed: &mut usize,
    known: &mut u32,
    first: &mut u64,
    channels: &mut usize,
    bits: &mut u32,
    size: &mut usize,
) -> u8
    ensures { ReadFrameV2 bytes.now given block samples.old result consumed.new known.new
        first.new channels.new bits.new size.new samples.new }
{
    thriftacorn_read_next_v2(
        bytes, &mut 0, given, block, samples, consumed, known, first, channels, bits, size,
    )
}

// Reads the frame at a place of the bytes with such settings, and moves the place past it. A refusal leaves the place
// as it was.
#[tactic(auto, unfolding(crate::specs::Exports::settings_of, crate::specs::Exports::settings_with, crate::specs::Exports::record_of, crate::specs::Exports::given_of))]
#[unsafe(no_mangle)]
pub extern "C" fn thriftacorn_read_next_v2(
    bytes: &[u8],
    place: &mut usize,
    given: u32,
    block: usize,
    samples: &mut [i32],
    consumed: &mut usize,
    known: &mut u32,
    first: &mut u64,
    channels: &mut usize,
    bits: &mut u32,
    size: &mut usize,
) -> u8
    ensures { ReadNextV2 bytes.now place.old given block samples.old result place.new
        consumed.new known.new first.new channels.new bits.new size.new
        samples.new }
{
    let set = settings_with(given, block, 0, 0, 0);
    read_at(
        bytes, place, set, samples, consumed, known, first, &mut 0, &mut 0, channels, bits, size,
    )
}

// Reads the frame at the start of the bytes, with or without (1 or 0) the size of the stream's blocks, and with or
// without the stream's record: its bits and its rate.
#[unsafe(no_mangle)]
pub extern "C" fn thriftacorn_read_frame_v3(
    bytes: &[u8],
    given: u32,
    block: usize,
    streamed: u32,
    depth: u32,
    hertz: u32,
    samples: &mut [i32],
    consumed: &mut usize,
    known: &mut u32,
    first: &mut u64,
    rated: &mut u32,
    rate: &mut u32,
    channels: &mut usize,
    bits: &mut u32,
    size: &mut usize,
) -> u8
    ensures { ReadFrameV3 bytes.now (settings_with given block streamed depth hertz) samples.old result consumed.new
        known.new first.new rated.new rate.new channels.new bits.new
        size.new samples.new }
{
    thriftacorn_read_next_v3(
        bytes, &mut 0, given, block, streamed, depth, hertz, samples, consumed, known, first,
        rated, rate, channels, bits, size,
    )
}

// Reads the frame at a place of the bytes with such settings, and moves the place past it. A refusal leaves the place
// as it was.
#[unsafe(no_mangle)]
pub extern "C" fn thriftacorn_read_next_v3(
    bytes: &[u8],
    place: &mut usize,
    given: u32,
    block: usize,
    streamed: u32,
    depth: u32,
    hertz: u32,
    samples: &mut [i32],
    consumed: &mut usize,
    known: &mut u32,
    first: &mut u64,
    rated: &mut u32,
    rate: &mut u32,
    channels: &mut usize,
    bits: &mut u32,
    size: &mut usize,
) -> u8
    ensures { ReadNextV3 bytes.now place.old (settings_with given block streamed depth hertz) samples.old result
        place.new consumed.new known.new first.new rated.new rate.new
        channels.new bits.new size.new samples.new }
{
    let set = settings_with(given, block, streamed, depth, hertz);
    read_at(
        bytes, place, set, samples, consumed, known, first, rated, rate, channels, bits, size,
    )
}

// The size of a stream's blocks, by the header at the start of the bytes: 1 and the size, or 0 and 0 if there is no
// header.
#[unsafe(no_mangle)]
pub extern "C" fn thriftacorn_stream_block_v1(bytes: &[u8], block: &mut usize) -> u32
    ensures { StreamBlockV1 bytes.now result block.new }
{
    let size = walk::stream_settings(bytes).block;
    *block = size.unwrap_or(0);
    u32::from(size.is_some())
}
