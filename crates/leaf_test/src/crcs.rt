// Both check sums, in hexadecimal.
use crate::show::Hex;
use crc::{crc8, crc16};

fn both(rt: &HostRuntime, s: &[u8]) {
    let _ = println!(rt; "crc8 crc16 {} = {:02x} {:04x}", Hex(s), crc8(s), crc16(s));
}

// The data of claxon's verify_crc8_test_vectors and verify_crc16_test_vectors, the nine digits of the published check
// values, and the empty input.
pub fn sums(rt: &HostRuntime) {
    both(rt, b"\x1f");
    both(rt, b"\x04\x01");
    both(rt, b"\x61\x62\x63");
    both(rt, b"123456789");
    both(rt, b"");
}

// The first n of forty seeded bytes, for each n from 1: so `crc16` takes its eight bytes no times to four times, with each
// number of bytes left over. The sums were worked out bit by bit in Python.
pub fn lengths(rt: &HostRuntime) {
    let data: &[u8] =
        b"\x71\x51\x0c\xb1\x4d\xf8\x2b\x1e\xa1\xbb\x41\x5c\x21\xa6\xeb\x67\xc6\xc9\x61\x4c\x35\xad\x15\x5a\x33\xaf\x82\xff\x41\xc6\x95\x1d\xba\xeb\xbc\xb9\xbc\xba\xdd\xbd";
    for n in 1..=data.len() {
        both(rt, &data[..n]);
    }
}
