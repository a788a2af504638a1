// The readers of words. First `read_unary` on runs of zeros of each length, from each bit of a byte. The bits before
// the place are ones, and so are those after the 1 bit that ends the run. Each run is read three times: with bytes
// after it, at the end of the input, and without the byte of its 1 bit, where the input is short. A line has the
// lengths, and how many runs were read right. Then both readers, and the word from a byte on, against readers that take
// one bit a turn, on a million seeded inputs.
ghost use Rattle.std.specs.Prelude.{◌^◌, ◌<◌};

use crate::bit_by_bit;
use error::Read;
use input::{read_bits, read_unary, word_from};
use reading::Place;
use std::fmt;

// The first n bytes, or none where there are fewer.
fn first_bytes(s: &[u8], n: usize) -> &[u8] {
    s.get(..n).unwrap_or(&[])
}

// Whether the three answers are right.
fn is_right(s: &[u8], bit: usize, zeros: usize) -> bool
    requires { (bit < 8) × (zeros < 2 ^ 32) }
{
    let at = Place { byte: 0, bit };
    let bytes = (bit + zeros) / 8;
    let end = bit + zeros + 1;
    let next = Place {
        byte: end / 8,
        bit: end % 8,
    };
    let right = Ok((zeros as u64, next));
    read_unary(s, at) == right
        && read_unary(first_bytes(s, bytes + 1), at) == right
        && read_unary(first_bytes(s, bytes), at).is_err()
}

fn put(s: &mut [u8], i: usize, b: u8) {
    if let Some(x) = s.get_mut(i) {
        *x = b;
    }
}

// Lays a run into the buffer, from a bit of its first byte, reads it, and clears the buffer again.
fn run(s: &mut [u8], bit: usize, zeros: usize) -> bool
    requires { (bit < 8) × (zeros < 2 ^ 32) }
{
    let one = bit + zeros;
    let before = !(255u8 >> bit);
    let after = 255u8 >> (one % 8);
    put(s, 0, before);
    put(s, one / 8, if one < 8 { before | after } else { after });
    let r = is_right(s, bit, zeros);
    put(s, 0, 0);
    put(s, one / 8, 0);
    r
}

// Runs of each length from one to another, from each bit.
fn lengths(rt: &HostRuntime, s: &mut [u8], from: usize, to: usize)
    requires { (from < 2 ^ 28) × (to < 2 ^ 28) }
{
    let mut n: u64 = 0;
    for zeros in from..=to {
        for bit in 0..8 {
            n = n.wrapping_add(u64::from(run(s, bit, zeros)));
        }
    }
    let _ = println!(rt; "runs of {from}-{to} = {n}");
}

pub fn runs(rt: &HostRuntime) {
    let mut s = [0u8; 8208];
    lengths(rt, &mut s, 0, 200);
    lengths(rt, &mut s, 65535, 65537);
}

// Marsaglia's xorshift: from each seed but 0, all numbers of 64 bits but 0 in turn.
fn draw(x: u64) -> u64 {
    let y = x ^ (x << 13);
    let z = y ^ (y >> 7);
    z ^ (z << 17)
}

// What the seeded inputs got: the inputs on which a reader differs, the runs that ended, those of 64 zeros or more, the
// numbers of more than 56 bits, and the other numbers.
#[derive(Clone, Copy, Default)]
struct SeededCounts {
    differ: u64,
    ended: u64,
    long: u64,
    wide: u64,
    narrow: u64,
}

impl fmt::Display for SeededCounts {
    fn fmt<W: fmt::Write>(&self, f: &mut fmt::Formatter<W>) -> fmt::Result {
        let SeededCounts {
            differ,
            ended,
            long,
            wide,
            narrow,
        } = *self;
        write!(f, "{differ} {ended} {long} {wide} {narrow}")
    }
}

fn is_long(r: Read<u64>) -> bool {
    matches!(r, Ok((v, _)) if 64 <= v)
}

// The 64 bits from a byte on, one by one, or 0 where the input ends before.
fn word_one_by_one(s: &[u8], byte: usize) -> u64 {
    bit_by_bit::bits_one_by_one(s, Place { byte, bit: 0 }, 64).map_or(0, |(word, _)| word)
}

impl SeededCounts {
    // Counts one input: its place, and the length of its number.
    fn count(&mut self, s: &[u8], at: Place, n: u32) {
        let zeros = read_unary(s, at);
        let number = read_bits(s, at, n);
        let same = zeros == bit_by_bit::unary_one_by_one(s, at)
            && number == bit_by_bit::bits_one_by_one(s, at, n)
            && word_from(s, at.byte) == word_one_by_one(s, at.byte);
        add(&mut self.differ, !same);
        add(&mut self.ended, zeros.is_ok());
        add(&mut self.long, is_long(zeros));
        add(&mut self.wide, 56 < n && number.is_ok());
        add(&mut self.narrow, n <= 56 && number.is_ok());
    }
}

// One more, if it holds.
fn add(count: &mut u64, holds: bool) {
    *count = count.wrapping_add(u64::from(holds));
}

// Eight bytes with few ones: about one bit in 32, over all draws.
fn few_ones(a: u64, x: u64) -> u64 {
    let b = draw(a);
    if (x >> 48) % 4 == 0 {
        a & b & draw(b)
    } else {
        0
    }
}

pub fn seeded(rt: &HostRuntime) {
    let mut s = [0u8; 40];
    let mut counts = SeededCounts::default();
    let mut x: u64 = 203;
    for _ in 0..1_000_000 {
        let a = draw(x);
        x = draw(a);
        let first = (x % 33) as usize;
        s[first..first + 8].copy_from_slice(&few_ones(a, x).to_le_bytes());
        let at = Place {
            byte: ((x >> 16) % 43) as usize,
            bit: ((x >> 24) % 9) as usize,
        };
        counts.count(&s[..((x >> 8) % 41) as usize], at, ((x >> 32) % 73) as u32);
    }
    let _ = println!(rt; "seeded = {counts}");
}
