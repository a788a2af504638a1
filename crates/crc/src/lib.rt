// The two check sums of a slice: the CRC-8 that ends a frame header (RFC 9639 section 9.1.8) and the CRC-16 that ends a
// frame (section 9.3). Both answer on every slice, with the sum that the format defines over the slice's bits.
//
// A sum is updated with tables of every byte's own sum. The CRC-8 goes byte by byte. The CRC-16 takes eight bytes a turn
// by eight tables, and the last few byte by byte. The definitions are imported under other names, since the functions
// have the same ones.
#![tactic(auto)]

mod tables;

ghost use Rattle.std.specs.Prelude.{◌≡◌, ◌∷◌, ◌+◌, ◌<◌, ◌≤◌, length, take, drop, replicate};
ghost use Rattle.reading.specs.Bytes.{bits_of_byte, bits_of_bytes};
ghost use Rattle.rfc9639.specs.CheckSums.{crc_bits, crc8 as crc8_of, crc16 as crc16_of};
ghost use Rattle.crc.specs.Private.{byte_sums, EightTables};

use tables::{CRC8_TABLE, CRC16_TABLES};

// Adds one byte to a CRC-8, whose polynomial is x^8 + x^2 + x + 1. The table is lent, so that it is set up once per sum
// and not once per byte.
fn crc8_byte(table: &[u8; 256], sum: u8, byte: u8) -> u8
    requires { table.now ≡ byte_sums 8 0x07 }
    ensures { result ≡ crc_bits 8 0x07 sum (bits_of_byte byte) }
{
    table[(sum ^ byte) as usize]
}

// Adds one byte to a CRC-16, whose polynomial is x^16 + x^15 + x^2 + 1.
fn crc16_byte(tables: &[[u16; 256]; 8], sum: u16, byte: u8) -> u16
    requires { EightTables 16 0x8005 tables.now }
    ensures { result ≡ crc_bits 16 0x8005 sum (bits_of_byte byte) }
{
    let place = (sum >> 8) ^ (byte as u16);
    tables[0][place as usize] ^ (sum << 8)
}

// The CRC-16 of one byte with some zero bytes after it.
fn crc16_then_zeros(tables: &[[u16; 256]; 8], byte: u8, zeros: usize) -> u16
    requires { EightTables 16 0x8005 tables.now × (zeros < 8) }
    ensures { result ≡ crc_bits 16 0x8005 0 (bits_of_bytes (byte ∷ replicate zeros 0)) }
{
    tables[zeros][byte as usize]
}

// The CRC-16 of six bytes of `s` by themselves. It is the XOR of each byte's own sum, with zeros for the bytes after it.
fn crc16_six(tables: &[[u16; 256]; 8], s: &[u8], from: usize) -> u16
    requires { EightTables 16 0x8005 tables.now × (from + 6 ≤ length s.now) }
    ensures { result ≡ crc_bits 16 0x8005 0 (bits_of_bytes (take 6 (drop from s.now))) }
{
    let mut xor = 0;
    for k in 0..6 {
        xor ^= crc16_then_zeros(tables, s[from + k], 5 - k);
    }
    xor
}

// Adds eight bytes of `s` to a CRC-16. The old sum only changes the first two of them. What the other six add does not
// depend on it: that is `ahead`, their own sum.
fn crc16_eight(tables: &[[u16; 256]; 8], sum: u16, s: &[u8], from: usize, ahead: u16) -> u16
    requires eight_tables { EightTables 16 0x8005 tables.now × (from + 8 ≤ length s.now) }
    requires ahead_value { ahead ≡ crc_bits 16 0x8005 0 (bits_of_bytes (take 6 (drop (from + 2) s.now))) }
    ensures { result ≡ crc_bits 16 0x8005 sum (bits_of_bytes (take 8 (drop from s.now))) }
{
    let first = (sum >> 8) as u8 ^ s[from];
    let second = (sum % 256) as u8 ^ s[from + 1];
    crc16_then_zeros(tables, first, 7) ^ crc16_then_zeros(tables, second, 6) ^ ahead
}

// The CRC-16 of a whole slice, in turns of eight bytes. The look-ups that do not depend on the sum are made a turn ahead,
// so that they do not wait for it. So the last turn is the one that leaves fewer than sixteen bytes; what it leaves is
// added byte by byte.
fn crc16_by_tables(tables: &[[u16; 256]; 8], s: &[u8]) -> u16
    requires { EightTables 16 0x8005 tables.now }
    ensures { result ≡ crc16_of (bits_of_bytes s.now) }
{
    let turns = (s.len() / 8).saturating_sub(1);
    let mut sum: u16 = 0;
    let mut ahead = if 8 <= s.len() {
        crc16_six(tables, s, 2)
    } else {
        0
    };
    for turn in 0..turns {
        let from = 8 * turn;
        sum = crc16_eight(tables, sum, s, from, ahead);
        ahead = crc16_six(tables, s, from + 10);
    }
    for b in &s[8 * turns..] {
        sum = crc16_byte(tables, sum, *b);
    }
    sum
}

// The CRC-8 that ends a frame header, taken over all the header's bytes before it (RFC 9639 section 9.1.8).
pub fn crc8(s: &[u8]) -> u8
    ensures { result ≡ crc8_of (bits_of_bytes s.now) }
{
    let table = CRC8_TABLE;
    let mut sum: u8 = 0;
    for b in s {
        sum = crc8_byte(&table, sum, *b);
    }
    sum
}

// The CRC-16 that ends a frame, taken over all the frame's bytes before it (RFC 9639 section 9.3).
pub fn crc16(s: &[u8]) -> u16
    ensures { result ≡ crc16_of (bits_of_bytes s.now) }
{
    let tables = CRC16_TABLES;
    crc16_by_tables(&tables, s)
}
