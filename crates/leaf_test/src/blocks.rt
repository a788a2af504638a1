// The functions of `block` on claxon's test data, and each of their refusals. A line has the block as channels x size,
// a channel and an index, then the three answers: the channel's range and its samples, the sample, and the pair.
use crate::show::{Answer, Samples};
use block::{Block, channel, pair, sample};
use std::fmt;

// The left and the right sample.
#[derive(Drop)]
struct Pair((i32, i32));

impl fmt::Display for Pair {
    fn fmt<W: fmt::Write>(&self, f: &mut fmt::Formatter<W>) -> fmt::Result {
        let (left, right) = self.0;
        write!(f, "{left} {right}")
    }
}

// The slice needs no check: by its contract, `channel` answers a range that lies in the samples.
fn channel_at(rt: &HostRuntime, s: &[i32], b: Block, c: usize) {
    let _ = match channel(s, b, c) {
        Ok((start, end)) => print!(rt; "{start}..{end},{}", Samples(&s[start..end])),
        Err(e) => print!(rt; "refused {},", u8::from(e)),
    };
}

fn line(rt: &HostRuntime, s: &[i32], channels: usize, size: usize, c: usize, i: usize) {
    let b = Block { channels, size };
    let _ = print!(rt; "block {channels}x{size} {c} {i} = ");
    channel_at(rt, s, b, c);
    let _ = println!(rt;
        ", {}, {}",
        Answer(sample(s, b, c, i)),
        Answer(pair(s, b, i).map(Pair))
    );
}

pub fn blocks(rt: &HostRuntime) {
    // claxon's samples, in both of its tests of a block
    let s: &[i32] = &[2, 3, 5, 7, 11, 13, 17, 19, 23, 29, 31, 37, 41, 43, 47];
    for (channels, size, c, i) in [
        // its verify_block_sample
        (3, 5, 0, 2),
        (3, 5, 1, 3),
        (3, 5, 2, 4),
        // its verify_block_stereo_samples_iterator
        (2, 3, 0, 0),
        (2, 3, 0, 1),
        (2, 3, 0, 2),
        (2, 3, 0, 3),
        // a block of no samples
        (3, 0, 1, 0),
        // a channel out of range, fewer samples than the block has, and a block of 2^64 samples, which is 0 in 64 bits
        (3, 5, 3, 0),
        (4, 4, 0, 0),
        (0x1_0000_0000, 0x1_0000_0000, 0, 0),
        // an index out of range
        (3, 5, 0, 5),
        // not two channels; and two, with fewer samples than the block has
        (1, 5, 0, 0),
        (3, 5, 0, 0),
        (2, 8, 0, 0),
        (2, 0x8000_0000_0000_0000, 0, 0),
    ] {
        line(rt, s, channels, size, c, i);
    }
}
