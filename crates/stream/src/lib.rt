// The stream header (RFC 9639 sections 6 and 8), in the order of its bits: claxon's `metadata.rs`. `read_stream_header`
// answers as the definition does, on every input. A caller that holds only a part of a long header reads it by
// `read_stream_start` and `read_block_head`. Each private function reads one part of the definition.
#![tactic(auto)]

ghost use Rattle.std.specs.Prelude.{◌≡◌, true, ◌≤◌, ◌<◌, length};
ghost use Rattle.reading.specs.Places.{inside, run_at, place_of};
ghost use Rattle.error.specs.Answers.{read_at, passed_at};
ghost use Rattle.rfc9639.specs.StreamHeader.{mark, sizes, rate_channels_and_bits, md5, stream_info, last_and_type, first_block, block_head, skipped_block, skipped_blocks, stream_start, stream_header_of};
ghost use Rattle.stream.specs.Answers.{stream_at, start_at, md5_bytes};

use error::{Read, Refusal};
use input::read_bits;
use reading::{Place, is_inside};
use rfc9639::{Md5, STREAM_INFO_LENGTH, STREAM_MARK, Sizes, StreamInfo};

// The four bytes fLaC.
fn read_mark(s: &[u8], at: Place) -> Result<Place, Refusal>
    ensures { passed_at result ≡ run_at mark s.now at }
{
    let (v, p) = read_bits(s, at, 32)?;
    if v != STREAM_MARK {
        return Err(Refusal::NotSync);
    }
    Ok(p)
}

// The smallest and the largest, in w bits each.
fn read_sizes(s: &[u8], at: Place, w: u32) -> Read<Sizes>
    requires { w ≤ 32 }
    ensures { read_at result ≡ run_at (sizes w) s.now at }
{
    let (smallest, p) = read_bits(s, at, w)?;
    let (largest, end) = read_bits(s, p, w)?;
    Ok((
        Sizes {
            smallest: smallest as u32,
            largest: largest as u32,
        },
        end,
    ))
}

// The sample rate, the number of channels and the bits of a sample, at least 4. The last two are stored less one.
fn read_format(s: &[u8], at: Place) -> Read<(u32, u32, u32)>
    ensures { read_at result ≡ run_at rate_channels_and_bits s.now at }
{
    let (rate, p) = read_bits(s, at, 20)?;
    let (channels, q) = read_bits(s, p, 3)?;
    let (bits, end) = read_bits(s, q, 5)?;
    if bits + 1 < 4 {
        return Err(Refusal::BadShape);
    }
    Ok(((rate as u32, channels as u32 + 1, bits as u32 + 1), end))
}

// The MD5's 16 bytes.
fn read_md5(s: &[u8], at: Place) -> Read<Md5>
    ensures { read_at result ≡ run_at md5 s.now at }
{
    let (high, p) = read_bits(s, at, 64)?;
    let (low, end) = read_bits(s, p, 64)?;
    Ok((Md5 { high, low }, end))
}

// The contents of STREAMINFO (RFC 9639 section 8.2).
fn read_stream_info(s: &[u8], at: Place) -> Read<StreamInfo>
    ensures { read_at result ≡ run_at stream_info s.now at }
{
    let (blocks, p) = read_sizes(s, at, 16)?;
    let (frames, q) = read_sizes(s, p, 24)?;
    let ((rate, channels, bits), t) = read_format(s, q)?;
    let (samples, u) = read_bits(s, t, 36)?;
    let (md5, end) = read_md5(s, u)?;
    let info = StreamInfo {
        blocks,
        frames,
        rate,
        channels,
        bits,
        samples,
        md5,
    };
    Ok((info, end))
}

// The first byte of a metadata block (RFC 9639 section 8.1): whether the block is the last one, and its type. Type 127
// is forbidden.
fn read_last_and_type(s: &[u8], at: Place) -> Read<(bool, u64)>
    ensures { read_at result ≡ run_at last_and_type s.now at }
{
    let (last, p) = read_bits(s, at, 1)?;
    let (kind, q) = read_bits(s, p, 7)?;
    if kind == 127 {
        return Err(Refusal::Reserved);
    }
    Ok(((last == 1, kind), q))
}

// The first block: STREAMINFO, type 0, of 34 bytes. Whether it is the last one, and what it says.
fn read_first_block(s: &[u8], at: Place) -> Read<(bool, StreamInfo)>
    ensures { read_at result ≡ run_at first_block s.now at }
{
    let ((last, kind), p) = read_last_and_type(s, at)?;
    if kind != 0 {
        return Err(Refusal::BadShape);
    }
    let (size, q) = read_bits(s, p, 24)?;
    if size != STREAM_INFO_LENGTH {
        return Err(Refusal::BadShape);
    }
    let (info, end) = read_stream_info(s, q)?;
    Ok(((last, info), end))
}

// The mark and STREAMINFO, at the start of the input: its first 42 bytes. Whether that is the last block, what it says,
// and how many bytes they take.
pub fn read_stream_start(s: &[u8]) -> Result<(bool, StreamInfo, usize), Refusal>
    ensures { start_at result ≡ run_at stream_start s.now (place_of 0) }
{
    let p = read_mark(s, Place { byte: 0, bit: 0 })?;
    let ((last, info), end) = read_first_block(s, p)?;
    Ok((last, info, end.byte))
}

// The first four bytes of a block after STREAMINFO, which may have any type but 127: whether it is the last one, the
// length of its contents in bytes, and the place where they start.
pub fn read_block_head(s: &[u8], at: Place) -> Read<(bool, u64)>
    ensures { read_at result ≡ run_at block_head s.now at }
{
    let ((last, _), p) = read_last_and_type(s, at)?;
    let (size, q) = read_bits(s, p, 24)?;
    Ok(((last, size), q))
}

// A block after STREAMINFO: whether it is the last one. Its contents are not looked at: they need only be there.
fn skip_block(s: &[u8], at: Place) -> Read<bool>
    ensures { read_at result ≡ run_at skipped_block s.now at }
{
    let ((last, size), p) = read_block_head(s, at)?;
    let end = Place {
        byte: p.byte + size as usize,
        bit: p.bit,
    };
    if !is_inside(s, end) {
        return Err(Refusal::CutShort);
    }
    Ok((last, end))
}

// The blocks up to the last one. Each takes at least four bytes, so an input has fewer blocks than bytes.
fn skip_blocks(s: &[u8], at: Place) -> Result<Place, Refusal>
    requires { (0 < length s.now) × (inside s.now at ≡ true) }
    ensures { passed_at result ≡ run_at (skipped_blocks (length s.now)) s.now at }
{
    let mut p = at;
    loop {
        let (last, end) = skip_block(s, p)?;
        if last {
            return Ok(end);
        }
        p = end;
    }
}

// The stream header at the start of the input, and how many bytes it takes.
pub fn read_stream_header(s: &[u8]) -> Result<(StreamInfo, usize), Refusal>
    ensures { stream_at result ≡ stream_header_of s.now }
{
    let (last, info, n) = read_stream_start(s)?;
    if last {
        return Ok((info, n));
    }
    let end = skip_blocks(s, Place { byte: n, bit: 0 })?;
    Ok((info, end.byte))
}

// The 16 bytes of an MD5, as they are stored.
pub fn md5_bytes(sum: Md5) -> [u8; 16]
    ensures { result ≡ md5_bytes sum }
{
    let mut bytes = [0; 16];
    bytes[..8].copy_from_slice(&sum.high.to_be_bytes());
    bytes[8..].copy_from_slice(&sum.low.to_be_bytes());
    bytes
}
