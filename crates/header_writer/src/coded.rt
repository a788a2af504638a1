// Writes the coded number of a frame header (RFC 9639 section 9.1.5), byte by byte.
ghost use Rattle.std.specs.Prelude.{◌≡◌, ◌∷◌, ◌≤◌, length};
ghost use Rattle.reading.specs.Bytes.{bits_of_bytes};
ghost use Rattle.rfc9639.specs.Write.{followers, number_bytes};
ghost use Rattle.bit_writer.specs.PenWrites.{Appends};

use bit_writer::BitWriter;

// A number's first byte, and how many bytes follow it: the shortest form of a number below 2^36; from there on the
// longest.
fn form_of(v: u64) -> (u64, u32)
    ensures { (number_bytes v ≡ result.0 ∷ followers result.1 v) × (result.1 ≤ 6) }
{
    match v {
        0..0x80 => (v, 0),
        0x80..0x800 => (0xc0 + v / 0x40, 1),
        0x800..0x1_0000 => (0xe0 + v / 0x1000, 2),
        0x1_0000..0x20_0000 => (0xf0 + v / 0x4_0000, 3),
        0x20_0000..0x400_0000 => (0xf8 + v / 0x100_0000, 4),
        0x400_0000..0x8000_0000 => (0xfc + v / 0x4000_0000, 5),
        _ => (0xfe, 6),
    }
}

// In bytes.
pub fn number_length(v: u64) -> usize
    ensures { result ≡ length (number_bytes v) }
{
    let (_, more) = form_of(v);
    more as usize + 1
}

// n bytes 10xxxxxx, the highest bits first.
fn write_followers(v: u64, n: u32, writer: &mut BitWriter)
    requires { n ≤ 6 }
    ensures { Appends (bits_of_bytes (followers n v)) writer.old writer.new }
{
    for left in (0..n).rev() {
        writer.write_bits(8, 0x80 + (v >> (6 * left)) % 64);
    }
}

pub fn write_number(v: u64, writer: &mut BitWriter)
    ensures { Appends (bits_of_bytes (number_bytes v)) writer.old writer.new }
{
    let (first, more) = form_of(v);
    writer.write_bits(8, first);
    write_followers(v, more, writer);
}
