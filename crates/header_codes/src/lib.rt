// The code tables of the frame header (RFC 9639 sections 9.1.1 to 9.1.7), for the reader and for the writer. Each
// function answers on every code and every value as the definition does (rfc9639/specs/HeaderCodes.antt).
#![tactic(auto)]

ghost use Rattle.std.specs.Prelude.{◌≡◌, ◌%◌};
ghost use Rattle.rfc9639.specs.HeaderCodes.{block_size, size_code, rate_bits, sample_rate, assignment, channel_count, bit_depth, bits_code};
ghost use Rattle.header_codes.specs.Answers.{size_ask, depth_ask};

use error::Refusal;
use rfc9639::ChannelAssignment;

// What the code of a block size says: the size in samples, or that the size less one follows the coded number (RFC
// 9639 section 9.1.6), in one byte or in two.
#[derive(Clone, Copy, Debug, PartialEq, Eq)]
pub enum BlockSize {
    Samples(u64),
    InByte,
    InTwoBytes,
}

// RFC 9639 section 9.1.1. A code has four bits; any above them are ignored. Callers refuse code 0, reserved, before.
#[tactic(auto, unfolding(rfc9639::specs::HeaderCodes::block_size))]
pub fn block_size(code: u64) -> BlockSize
    ensures { size_ask result ≡ block_size (code % 16) }
{
    match code % 16 {
        1 => BlockSize::Samples(192),
        low if low <= 5 => BlockSize::Samples(144 << low),
        6 => BlockSize::InByte,
        7 => BlockSize::InTwoBytes,
        low => BlockSize::Samples(1 << low),
    }
}

// The code of a block size (RFC 9639 section 9.1.1): 6 or 7 where the size itself is stored after the coded number.
#[tactic(auto, unfolding(rfc9639::specs::HeaderCodes::size_code))]
pub fn size_code(n: usize) -> u64
    ensures { result ≡ size_code n }
{
    match n {
        192 => 1,
        576 => 2,
        1152 => 3,
        2304 => 4,
        4608 => 5,
        256 => 8,
        512 => 9,
        1024 => 10,
        2048 => 11,
        4096 => 12,
        8192 => 13,
        16384 => 14,
        32768 => 15,
        0..=256 => 6,
        _ => 7,
    }
}

// How many bits of the sample rate are stored after the coded number (RFC 9639 section 9.1.7).
#[tactic(auto, unfolding(rfc9639::specs::HeaderCodes::rate_bits))]
pub fn rate_bits(code: u64) -> u32
    ensures { result ≡ rate_bits code }
{
    match code {
        12 => 8,
        13 | 14 => 16,
        _ => 0,
    }
}

// The sample rate by its code and by what is stored after the coded number (RFC 9639 sections 9.1.2 and 9.1.7), in 16
// bits at most; any above them are ignored. Code 0 leaves the rate to the stream: None.
#[tactic(auto, unfolding(rfc9639::specs::HeaderCodes::sample_rate))]
pub fn sample_rate(code: u64, stored: u64) -> Option<u32>
    ensures { result ≡ sample_rate code (stored % 65536) }
{
    let low = (stored % 65536) as u32;
    match code {
        1 => Some(88200),
        2 => Some(176400),
        3 => Some(192000),
        4 => Some(8000),
        5 => Some(16000),
        6 => Some(22050),
        7 => Some(24000),
        8 => Some(32000),
        9 => Some(44100),
        10 => Some(48000),
        11 => Some(96000),
        12 => Some(low * 1000),
        13 => Some(low),
        14 => Some(low * 10),
        _ => None,
    }
}

// How the channels are stored (RFC 9639 section 9.1.3). Callers refuse the reserved codes, 11 to 15, before.
#[tactic(auto, unfolding(rfc9639::specs::HeaderCodes::assignment))]
pub fn channel_assignment(code: u64) -> ChannelAssignment
    ensures { result ≡ assignment code }
{
    match code {
        0..=7 => ChannelAssignment::Independent(code as usize + 1),
        8 => ChannelAssignment::LeftSide,
        9 => ChannelAssignment::SideRight,
        _ => ChannelAssignment::MidSide,
    }
}

#[tactic(auto, unfolding(rfc9639::specs::HeaderCodes::channel_count))]
pub fn channel_count(c: ChannelAssignment) -> usize
    ensures { result ≡ channel_count c }
{
    match c {
        ChannelAssignment::Independent(n) => n,
        ChannelAssignment::LeftSide => 2,
        ChannelAssignment::SideRight => 2,
        ChannelAssignment::MidSide => 2,
    }
}

// The bits of a sample by their code (RFC 9639 section 9.1.4), 0 where the header leaves them to the stream; or why
// the code is refused.
#[tactic(auto, unfolding(rfc9639::specs::HeaderCodes::bit_depth))]
pub fn bit_depth(code: u64) -> Result<u32, Refusal>
    ensures { depth_ask result ≡ bit_depth code }
{
    match code {
        0 => Ok(0),
        1 => Ok(8),
        2 => Ok(12),
        3 => Err(Refusal::Reserved),
        4 => Ok(16),
        5 => Ok(20),
        6 => Ok(24),
        _ => Err(Refusal::NotDone),
    }
}

// RFC 9639 section 9.1.4. Callers refuse any number of bits without a code before.
#[tactic(auto, unfolding(rfc9639::specs::HeaderCodes::bits_code))]
pub fn bits_code(b: u32) -> u64
    ensures { result ≡ bits_code b }
{
    match b {
        8 => 1,
        12 => 2,
        16 => 4,
        20 => 5,
        _ => 6,
    }
}
