// Readers that take one bit a turn, as `read_unary` once did. The readers of words are compared with them (runs.rt).
use error::{Read, Refusal};
use reading::{Place, is_inside};

// The bit at a place.
fn next_bit(s: &[u8], at: Place) -> Read<u64> {
    if 8 <= at.bit || s.len() <= at.byte {
        return Err(Refusal::CutShort);
    }
    let bit = (s[at.byte] >> (7 - at.bit)) % 2;
    let end = at.bit + 1;
    let next = Place {
        byte: at.byte + end / 8,
        bit: end % 8,
    };
    Ok((u64::from(bit), next))
}

// The next n bits as a number; of more than 64 bits, the last 64.
pub fn bits_one_by_one(s: &[u8], at: Place, n: u32) -> Read<u64> {
    if !is_inside(s, at) {
        return Err(Refusal::CutShort);
    }
    let mut place = at;
    let mut number = 0;
    for _ in 0..n {
        let (bit, next) = next_bit(s, place)?;
        number = (number << 1) | bit;
        place = next;
    }
    Ok((number, place))
}

// The number of zero bits before the next 1 bit, which is read too.
pub fn unary_one_by_one(s: &[u8], at: Place) -> Read<u64> {
    let mut place = at;
    for zeros in 0..u64::MAX {
        let (bit, next) = next_bit(s, place)?;
        if bit == 1 {
            return Ok((zeros, next));
        }
        place = next;
    }
    Err(Refusal::CutShort)
}
