// claxon's tests of bit reading (input.rs), with its data and its steps, and one of what claxon leaves undefined. The
// data is on a line of its own. Then each step has a line: `b` for one bit, b17 for `read_bits` of 17 bits, `u` for
// `read_unary`; the place that it starts at; the value and the place after it, or nothing where the input is short.
use crate::show::{At, Hex};
use error::Read;
use input::{read_bits, read_unary, word_from};
use reading::Place;
use std::fmt;

// What a step reads: one bit, a number of bits, or the zeros before the next 1 bit and that bit.
#[derive(Clone, Copy)]
enum Step {
    Bit,
    Bits(u32),
    Unary,
}

// A step is written as a letter or as its number of bits, so that the steps of a case are one byte string.
impl From<u8> for Step {
    fn from(code: u8) -> Step {
        match code {
            b'b' => Step::Bit,
            b'u' => Step::Unary,
            n => Step::Bits(u32::from(n)),
        }
    }
}

impl fmt::Display for Step {
    fn fmt<W: fmt::Write>(&self, f: &mut fmt::Formatter<W>) -> fmt::Result {
        match *self {
            Step::Bit => write!(f, "b"),
            Step::Bits(n) => write!(f, "b{n}"),
            Step::Unary => write!(f, "u"),
        }
    }
}

impl Step {
    fn read(self, s: &[u8], at: Place) -> Read<u64> {
        match self {
            Step::Bit => read_bits(s, at, 1),
            Step::Bits(n) => read_bits(s, at, n),
            Step::Unary => read_unary(s, at),
        }
    }
}

// Steps from a place, each from where the one before it ended, or from the same place where the input was short.
fn reads(rt: &HostRuntime, s: &[u8], steps: &[u8], start: Place) {
    let _ = println!(rt; "{}", Hex(s));
    let mut at = start;
    for code in steps {
        let step = Step::from(*code);
        match step.read(s, at) {
            Ok((v, next)) => {
                let _ = println!(rt; "{step} {} = {v} {}", At(at), At(next));
                at = next;
            }
            Err(_) => {
                let _ = println!(rt; "{step} {} =", At(at));
            }
        }
    }
}

const START: Place = Place { byte: 0, bit: 0 };

// claxon's tests, from the first bit of their data.
fn claxon(rt: &HostRuntime) {
    // its verify_read_bit: more bits are mixed in, to see that they are compatible
    reads(rt, b"\xa4\xe1", b"bbb\x01bbbbbbb\x02bbbb", START);
    // its verify_read_unary: one ends past the first byte, one skips a byte of zeros, and the place after is right
    reads(rt, b"\xa4\x80\x20\x00\x0a", b"uuuuuu\x03b", START);
    // its verify_read_leq_u8, verify_read_gt_u8_get_u16, verify_read_leq_u16 and verify_read_leq_u32
    let s: &[u8] = b"\xa5\xe1\xd2\x55\x73\x3f\xaa\x0c";
    let steps: &[u8] = b"\x00\x01\x01\x02\x02\x03\x03\x04\x05\x06\x07\x08\x06\x08\x04\x01\x01\x02";
    reads(rt, s, steps, START);
    reads(
        rt,
        b"\xa5\xe1\xd2\x55\xf0",
        b"\x0a\x0a\x03\x0a\x07\x0a",
        START,
    );
    reads(rt, b"\xa5\xe1\xd2\x55", b"\x00\x01\x0d\x09", START);
    reads(rt, b"\xa5\xe1\xd2\x55", b"\x01\x11\x0e", START);
    // its verify_read_mixed: the warm-up samples of an actual stream
    let s: &[u8] = b"\x03\xc7\xbf\xe5\x9b\x74\x1e\x3a\xdd\x7d\xc5\x5e\xf6\xbf\x78\x1b\xbd";
    reads(rt, s, b"\x06\x01\x11\x11\x11\x11\x11\x11\x11", START);
}

// Of more than 64 bits the last 64, and nothing at a place outside the input.
fn edges(rt: &HostRuntime) {
    let s: &[u8] = b"\xff\x01\x23\x45\x67\x89\xab\xcd\xef\x80";
    reads(rt, s, b"\x40", START);
    reads(rt, s, b"\x48\x09\x08\x00", START);
    reads(rt, s, b"\x00", Place { byte: 10, bit: 1 });
    reads(rt, s, b"\x00", Place { byte: 0, bit: 8 });
    reads(rt, s, b"b", Place { byte: 9, bit: 8 });
    reads(rt, s, b"u", Place { byte: 11, bit: 0 });
}

pub fn inputs(rt: &HostRuntime) {
    claxon(rt);
    edges(rt);
}

// The word from a byte on, in hexadecimal.
fn word(rt: &HostRuntime, s: &[u8], byte: usize) {
    let _ = println!(rt; "word_from {} {byte} = {:016x}", Hex(s), word_from(s, byte));
}

// No bytes, too few, just enough, one more; the last byte that has a word, the next, and the largest number.
pub fn words(rt: &HostRuntime) {
    let s: &[u8] = b"\x01\x23\x45\x67\x89\xab\xcd\xef\x80";
    word(rt, &s[..0], 0);
    word(rt, &s[..7], 0);
    word(rt, &s[..8], 0);
    word(rt, &s[..8], 1);
    word(rt, s, 0);
    word(rt, s, 1);
    word(rt, s, 2);
    word(rt, s, usize::MAX);
}
