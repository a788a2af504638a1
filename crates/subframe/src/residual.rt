// Samples stored as they are, and the coded residual (RFC 9639 sections 9.2.4 and 9.2.7). Each decoder fills the slice
// that it is lent and answers what the definition reads. On a refusal the slice may hold anything.
ghost use Rattle.std.specs.Prelude.{◌≡◌, ◌∷◌, ◌+◌, ◌-◌, ◌*◌, ◌/◌, ◌%◌, ◌^◌, ◌≤◌, ◌<◌, length, replicate};
ghost use Rattle.reading.specs.Readers.{many, each};
ghost use Rattle.reading.specs.Places.{run_at};
ghost use Rattle.rfc9639.specs.Integers.{signed_bits};
ghost use Rattle.rfc9639.specs.Residual.{folded as folded_of, unfolded, rice, escaped, partition, residual};
ghost use Rattle.error.specs.Answers.{read_at};
ghost use Rattle.subframe.specs.Answers.{samples_at};
ghost use Rattle.subframe.specs.Private.{place_after, rice_read_at, StartsInWord};

use super::bit_offset::BitOffset;
use error::{Read, Refusal};
use reading::Place;

pub fn read_sample(s: &[u8], at: Place, width: u32) -> Read<i32>
    requires { width ≤ 32 }
    ensures { read_at result ≡ run_at (signed_bits width) s.now at }
{
    let (v, p) = input::read_bits(s, at, width)?;
    Ok((number::low32(signed::sign_extend(v, width)), p))
}

// As many samples as `out` has (RFC 9639 section 9.2.4).
pub fn decode_verbatim(s: &[u8], at: Place, width: u32, out: &mut [i32]) -> Result<Place, Refusal>
    requires { width ≤ 32 }
    ensures { samples_at result out.new ≡ run_at (many (length out.old) (signed_bits width)) s.now at }
{
    if !reading::is_inside(s, at) {
        return Err(Refusal::CutShort);
    }
    let mut p = at;
    for x in out.iter_mut() {
        (*x, p) = read_sample(s, p, width)?;
    }
    Ok(p)
}

// The low 32 bits of the number with this quotient and this remainder of k bits.
fn folded(q: u64, r: u64, k: u32) -> u32
    requires { (q < 2 ^ 33) × (k ≤ 31) × (r < 2 ^ k) }
    ensures { result ≡ folded_of k q r }
{
    (((q << k) + r) % 0x1_0000_0000) as u32
}

// One residual of Rice parameter k (RFC 9639 section 9.2.7.2), wherever its code ends.
fn read_long_rice(s: &[u8], at: Place, k: u32) -> Read<i32>
    requires { k ≤ 31 }
    ensures { read_at result ≡ run_at (rice k) s.now at }
{
    let (q, p) = input::read_unary(s, at)?;
    let (r, next) = input::read_bits(s, p, k)?;
    Ok((signed::unfold(folded(q, r, k)), next))
}

// The same at the place so many bits after a byte.
fn read_any_rice(s: &[u8], at: BitOffset, k: u32) -> Result<(i32, BitOffset), Refusal>
    requires { (k ≤ 31) × (at.byte ≤ length s.now) × (at.bits < 64) }
    ensures { (rice_read_at result ≡ run_at (rice k) s.now (place_after at)) × StartsInWord result }
{
    let (x, p) = read_long_rice(s, at.place(), k)?;
    Ok((x, BitOffset::from(p)))
}

// The residual whose code's first 1 bit is bit `top` of a word, where bit 63 is the first: 63 - top zeros come before
// it, and the k bits of the remainder after it.
fn code_at_top(w: u64, top: u32, k: u32) -> i32
    requires { (k ≤ 31) × (k ≤ top) × (top < 64) × (w / 2 ^ top ≡ 1) }
    ensures { result ≡ unfolded (folded_of k (63 - top) (w / 2 ^ (top - k) % 2 ^ k)) }
{
    let x = w >> (top - k);
    signed::unfold(folded((63 - top) as u64, x - (1u64 << k), k))
}

// The same, quickly: nearly every code ends before the last bit of the word from the byte on, and is cut out of that
// word. The first shift drops the bits before the code. The byte is where the code before starts: it does not depend on
// that code's length, so the machine loads the word early.
fn read_rice(s: &[u8], at: BitOffset, k: u32) -> Result<(i32, BitOffset), Refusal>
    requires { (k ≤ 31) × (at.byte ≤ length s.now) × (at.bits < 64) }
    ensures { (rice_read_at result ≡ run_at (rice k) s.now (place_after at)) × StartsInWord result }
{
    let w = input::word_from(s, at.byte) << at.bits;
    if w == 0 {
        return read_any_rice(s, at, k);
    }
    let top = 63 - w.leading_zeros();
    if top as usize <= at.bits + k as usize {
        return read_any_rice(s, at, k);
    }
    Ok((
        code_at_top(w, top, k),
        BitOffset {
            byte: at.byte + at.bits / 8,
            bits: (at.bits % 8 + k as usize + 64) - top as usize,
        },
    ))
}

// As many residuals as `out` has.
fn decode_rice(s: &[u8], at: Place, k: u32, out: &mut [i32]) -> Result<Place, Refusal>
    requires { k ≤ 31 }
    ensures { samples_at result out.new ≡ run_at (many (length out.old) (rice k)) s.now at }
{
    if !reading::is_inside(s, at) {
        return Err(Refusal::CutShort);
    }
    let mut p = BitOffset::from(at);
    for x in out.iter_mut() {
        (*x, p) = read_rice(s, p, k)?;
    }
    Ok(p.place())
}

// An escaped partition (RFC 9639 section 9.2.7.1): a width, then as many residuals of it as `out` has.
fn decode_escaped(s: &[u8], at: Place, out: &mut [i32]) -> Result<Place, Refusal>
    ensures { samples_at result out.new ≡ run_at (escaped (length out.old)) s.now at }
{
    let (width, p) = input::read_bits(s, at, 5)?;
    decode_verbatim(s, p, width as u32, out)
}

// A partition (RFC 9639 section 9.2.7). The last parameter is the escape code.
fn decode_partition(s: &[u8], at: Place, method: u32, out: &mut [i32]) -> Result<Place, Refusal>
    requires { method < 2 }
    ensures { samples_at result out.new ≡ run_at (partition method (length out.old)) s.now at }
{
    let (k, p) = input::read_bits(s, at, 4 + method)?;
    if k == (16u64 << method) - 1 {
        return decode_escaped(s, p, out);
    }
    decode_rice(s, p, k as u32, out)
}

// `count` partitions of `size` residuals each, which fill `out`. The size may be 0, so the parts are no chunks of it.
fn decode_equal_partitions(
    s: &[u8],
    at: Place,
    method: u32,
    size: usize,
    count: usize,
    out: &mut [i32],
) -> Result<Place, Refusal>
    requires { (method < 2) × (length out.old ≡ count * size) }
    ensures { samples_at result out.new ≡ run_at (each (partition method) (replicate count size)) s.now at }
{
    if !reading::is_inside(s, at) {
        return Err(Refusal::CutShort);
    }
    let mut p = at;
    let mut start = 0;
    for _ in 0..count {
        let end = start + size;
        p = decode_partition(s, p, method, &mut out[start..end])?;
        start = end;
    }
    Ok(p)
}

// All partitions. The first has fewer residuals, by the number of warm-up samples.
fn decode_partitions(
    s: &[u8],
    at: Place,
    method: u32,
    size: usize,
    count: usize,
    warm: usize,
    out: &mut [i32],
) -> Result<Place, Refusal>
    requires { (method < 2) × (warm ≤ size) × (length out.old ≡ (size - warm) + count * size) }
    ensures { samples_at result out.new ≡ run_at (each (partition method) ((size - warm) ∷ replicate count size)) s.now at }
{
    let first = size - warm;
    let p = decode_partition(s, at, method, &mut out[..first])?;
    decode_equal_partitions(s, p, method, size, count, &mut out[first..])
}

// The residual of a block of n samples after `warm` warm-up samples (RFC 9639 section 9.2.7).
pub fn decode_residual(
    s: &[u8],
    at: Place,
    warm: usize,
    n: usize,
    out: &mut [i32],
) -> Result<Place, Refusal>
    requires { (warm ≤ n) × (length out.old ≡ n - warm) }
    ensures { samples_at result out.new ≡ run_at (residual warm n) s.now at }
{
    let (method, p) = input::read_bits(s, at, 2)?;
    if 2 <= method {
        return Err(Refusal::Reserved);
    }
    let (order, q) = input::read_bits(s, p, 4)?;
    let count = 1usize << order;
    if n % count != 0 {
        return Err(Refusal::BadShape);
    }
    let size = n / count;
    if size < warm {
        return Err(Refusal::BadShape);
    }
    decode_partitions(s, q, method as u32, size, count - 1, warm, out)
}
