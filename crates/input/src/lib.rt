// Bits of a slice at a place: claxon's input.rs, with a slice and a place by value instead of a stream. Each function
// answers on every argument: `read_bits` and `read_unary` with what the definition's question (crates/reading) gets
// from these bytes at that place, `word_from` with a word of them. Bits are read most significant first (RFC 9639
// section 5).
#![tactic(auto)]

ghost use Rattle.std.specs.Prelude.{◌≡◌, length, take, drop, ◌+◌, ◌-◌, ◌*◌, ◌/◌, ◌%◌, ◌^◌, ◌≤◌, ◌<◌};
ghost use Rattle.reading.specs.Readers.{bits, zeros};
ghost use Rattle.reading.specs.Places.{place_of, got_at, run_at};
ghost use Rattle.reading.specs.Bytes.{bits_of_bytes};
ghost use Rattle.reading.specs.NumbersAsBits.{bits_of};
ghost use Rattle.error.specs.Answers.{read_at};
ghost use Rattle.input.specs.Answers.{low64, count as count_of, counted_zeros, word_from};

use error::{Read, Refusal};
use reading::{Place, is_inside};

// The next n bits as a number; of more than 64 bits, the last 64. Where eight bytes are left, up to 56 bits come from
// the word that they make: the first shift drops the bits before the place, the others the bits after the number.
pub fn read_bits(s: &[u8], at: Place, n: u32) -> Read<u64>
    ensures { read_at result ≡ low64 (run_at (bits n) s.now at) }
{
    let byte = at.byte;
    let bit = at.bit;
    if 8 <= bit {
        return Err(Refusal::CutShort);
    }
    if n <= 56 {
        if byte < s.len() {
            if 8 <= s.len() - byte {
                let w = word_at(s, byte) << bit;
                return Ok(((w >> 1) >> (63 - n), later(byte, bit, n as usize)));
            }
        }
    }
    read_bits_by_bytes(s, Place { byte, bit }, n)
}

// The same near the end of the input, and for more bits. Each turn of the loop takes bits of one byte.
fn read_bits_by_bytes(s: &[u8], at: Place, n: u32) -> Read<u64>
    ensures { read_at result ≡ low64 (run_at (bits n) s.now at) }
{
    if !is_inside(s, at) {
        return Err(Refusal::CutShort);
    }
    let mut p = at;
    let mut left = n as usize;
    let mut acc: u64 = 0;
    while 0 < left {
        let byte = p.byte;
        let bit = p.bit;
        if s.len() <= byte {
            return Err(Refusal::CutShort);
        }
        let m = number::lesser(8 - bit, left);
        acc = (acc << m) + chunk(s[byte], bit, m);
        p = later(byte, bit, m);
        left -= m;
    }
    Ok((acc, p))
}

// The number of zero bits before the next 1 bit, which is read too. From 2 ^ 32 zeros on it is the low 32 bits of their
// number, with bit 32 set: a Rice quotient needs only the low bits, the wasted bits only that there are too many.
// Nearly every run ends in the first eight bytes: it is the leading zeros of the rest of their word, from the place on.
pub fn read_unary(s: &[u8], at: Place) -> Read<u64>
    ensures { read_at result ≡ counted_zeros (run_at zeros s.now at) }
{
    let byte = at.byte;
    let bit = at.bit;
    if 8 <= bit {
        return Err(Refusal::CutShort);
    }
    if s.len() <= byte {
        return Err(Refusal::CutShort);
    }
    if 8 <= s.len() - byte {
        let rest = word_at(s, byte) << bit;
        let q = u64::leading_zeros(rest);
        if q < 64 {
            return ended(0, byte, bit, q);
        }
    }
    read_long_unary(s, byte, bit)
}

// The same for a run of any length: by words while eight bytes are left, then by bytes. `next` is the next byte, and
// `before` says how many of its bits come before the place.
fn read_long_unary(s: &[u8], byte: usize, bit: usize) -> Read<u64>
    requires { (byte < length s.now) × (bit < 8) }
    ensures { read_at result ≡ counted_zeros (run_at zeros s.now (record { byte = byte; bit = bit })) }
{
    let mut next = byte;
    let mut before = bit;
    let mut count: u64 = 0;
    while 8 <= s.len() - next {
        let rest = word_at(s, next) << before;
        let q = u64::leading_zeros(rest);
        if q < 64 {
            return ended(count, next, before, q);
        }
        count = more(count, (64 - before) as u64);
        next += 8;
        before = 0;
    }
    while next < s.len() {
        let rest = s[next] << before;
        let q = u8::leading_zeros(rest);
        if q < 8 {
            return ended(count, next, before, q);
        }
        count = more(count, (8 - before) as u64);
        next += 1;
        before = 0;
    }
    Err(Refusal::CutShort)
}

// The answer where q more zeros, and the 1 bit that ends the run, come after a bit of a byte.
fn ended(count: u64, byte: usize, bit: usize, q: u32) -> Read<u64>
    requires { (count < 2 ^ 33) × (byte < 2 ^ 63) × (bit < 8) × (q < 64) }
    ensures { read_at result ≡ got_at (count_of (count + q)) (place_of (8 * byte + bit + (q + 1))) }
{
    Ok((more(count, q as u64), later(byte, bit, q as usize + 1)))
}

// The count after m more zeros. From 2 ^ 33 on it goes back to 2 ^ 32: it does not overflow, and bit 32, which says
// that there were too many, stays set.
fn more(c: u64, m: u64) -> u64
    requires { (c < 2 ^ 33) × (m ≤ 64) }
    ensures { result ≡ count_of (c + m) }
{
    let t = c + m;
    if t < 0x2_0000_0000 {
        t
    } else {
        t - 0x1_0000_0000
    }
}

// The m bits of a byte that start at `bit`.
fn chunk(b: u8, bit: usize, m: usize) -> u64
    requires { bit + m ≤ 8 }
    ensures { result ≡ b / 2 ^ (8 - (bit + m)) % 2 ^ m }
{
    ((b as u64) >> (8 - (bit + m))) % (1u64 << m)
}

// The place m bits after a bit of a byte.
fn later(byte: usize, bit: usize, m: usize) -> Place
    requires { (byte < 2 ^ 63) × (bit < 8) × (m < 2 ^ 32) }
    ensures { result ≡ place_of (8 * byte + bit + m) }
{
    let t = bit + m;
    Place {
        byte: byte + t / 8,
        bit: t % 8,
    }
}

// The word that the eight bytes from a byte on make, or 0 where fewer than eight are left. One comparison says which,
// with a number that a caller's loop computes once.
pub fn word_from(s: &[u8], byte: usize) -> u64
    ensures { result ≡ word_from s.now byte }
{
    if number::saturating_sub(s.len(), 7) <= byte {
        return 0;
    }
    word_at(s, byte)
}

// The word that eight bytes make: its 64 bits are those of the input from that byte on. One load, in the machine.
fn word_at(s: &[u8], byte: usize) -> u64
    requires { byte + 8 ≤ length s.now }
    ensures { bits_of 64 result ≡ take 64 (drop (8 * byte) (bits_of_bytes s.now)) }
{
    let high = four_bytes(s[byte], s[byte + 1], s[byte + 2], s[byte + 3]);
    let low = four_bytes(s[byte + 4], s[byte + 5], s[byte + 6], s[byte + 7]);
    high * 0x1_0000_0000 + low
}

// The number that four bytes make, the first one the most significant.
fn four_bytes(a: u8, b: u8, c: u8, d: u8) -> u64
    ensures { (result ≡ ((a * 256 + b) * 256 + c) * 256 + d) × (result < 2 ^ 32) }
{
    ((a as u64 * 256 + b as u64) * 256 + c as u64) * 256 + d as u64
}
