// The limits of a frame that is written: which settings it can have, and how long it can be with them (document 01,
// "The added writer"). Each function answers on every argument as the definition does.
#![tactic(auto)]

ghost use Rattle.std.specs.Prelude.{◌≡◌, ◌^◌, ◌≤◌};
ghost use Rattle.rfc9639.specs.HeaderCodes.{largest_block_size, assignment, channel_count};
ghost use Rattle.rfc9639.specs.Write.{writable, number_limit, allowed, lanes as lanes_of, most_bits};
ghost use Rattle.frame_limits.specs.Longest.{longest_of};
ghost use Rattle.frame_limits.specs.Private.{in_range};

use rfc9639::{FrameSetting, LARGEST_BLOCK_SIZE, LARGEST_FRAME_NUMBER, LARGEST_SAMPLE_NUMBER};

// The channels of a code of RFC 9639 section 9.1.3.
pub fn channels_of_code(code: u32) -> usize
    ensures { result ≡ channel_count (assignment code) }
{
    header_codes::channel_count(header_codes::channel_assignment(code as u64))
}

// The bits of a sample that can be written.
#[tactic(auto, unfolding(rfc9639::specs::Write::writable))]
fn is_writable(bits: u32) -> bool
    ensures { result ≡ writable bits }
{
    matches!(bits, 8 | 12 | 16 | 20 | 24)
}

// The largest number: a frame's where the blocking bit is 0, else a sample's.
#[tactic(auto, unfolding(rfc9639::specs::Write::number_limit, rfc9639::specs::HeaderCodes::largest_frame_number, rfc9639::specs::HeaderCodes::largest_sample_number))]
fn number_limit(blocking: u32) -> u64
    ensures { result ≡ number_limit blocking }
{
    if blocking == 0 {
        LARGEST_FRAME_NUMBER
    } else {
        LARGEST_SAMPLE_NUMBER
    }
}

// Whether each setting is one that a frame can have.
fn is_in_range(set: FrameSetting) -> bool
    ensures { result ≡ in_range set }
{
    set.channels <= 10
        && is_writable(set.bits)
        && set.blocking <= 1
        && 0 < set.size
        && set.size <= LARGEST_BLOCK_SIZE
        && set.number <= number_limit(set.blocking)
}

// Whether a frame can have these settings; `count` is the samples of all channels together.
pub fn is_allowed(set: FrameSetting, count: usize) -> bool
    ensures { result ≡ allowed set count }
{
    is_in_range(set) && count == channels_of_code(set.channels) * set.size
}

// The most bits that a frame's subframes take. A side channel is one bit wider.
fn most_bits(set: FrameSetting) -> usize
    requires { (set.bits ≤ 24) × (set.size ≤ largest_block_size) }
    ensures { (result ≡ most_bits set.bits set.size (lanes_of (assignment set.channels))) × (result ≤ 2 ^ 24) }
{
    let each = 8 + set.size * set.bits as usize;
    let all = channels_of_code(set.channels) * each;
    if set.channels < 8 {
        all
    } else {
        all + set.size
    }
}

// The length that no frame with these settings exceeds, in bytes; 0 where no frame can have them. An output of that
// length is never too short (`never-refused` of proofs/).
pub fn longest(channels: u32, bits: u32, blocking: u32, number: u64, size: usize) -> usize
    ensures { result ≡ longest_of (record { channels = channels; bits = bits; blocking = blocking; number = number; size = size }) }
{
    let set = FrameSetting {
        channels,
        bits,
        blocking,
        number,
        size,
    };
    if is_in_range(set) {
        16 + (most_bits(set) + 7) / 8
    } else {
        0
    }
}
