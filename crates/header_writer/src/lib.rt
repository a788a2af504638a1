// Writes a frame's header (RFC 9639 section 9.1), and gives its length. Each function answers on every setting and
// output, and promises the bits that the definition gives the header (rfc9639/specs/Write.antt).
#![tactic(auto)]

mod coded;

ghost use Rattle.std.specs.Prelude.{◌≡◌, ◌-◌, ◌/◌, length, take};
ghost use Rattle.reading.specs.Bytes.{bits_of_bytes};
ghost use Rattle.reading.specs.NumbersAsBits.{bits_of};
ghost use Rattle.rfc9639.specs.CheckSums.{crc8};
ghost use Rattle.rfc9639.specs.HeaderCodes.{size_bits};
ghost use Rattle.rfc9639.specs.Write.{code_bits, field_bits, header_bits};
ghost use Rattle.bit_writer.specs.PenWrites.{State, SameOutput, Appends};
ghost use Rattle.header_writer.specs.HeaderResult.{header_written};

use bit_writer::BitWriter;
use coded::{number_length, write_number};
use header_codes::{bits_code, size_code};
use rfc9639::{FrameSetting, SYNC_CODE};

// In bytes: four of codes, the coded number, the block size where it is stored, and the check sum.
pub fn header_length(set: FrameSetting) -> usize
    ensures { result ≡ length (header_bits set) / 8 }
{
    5 + number_length(set.number) + size_width(set.size) as usize / 8
}

// Written at the start of the output, if there is room for all of it; else nothing is written. The writer goes on after
// it.
pub fn write_header<'a>(set: FrameSetting, out: &'a mut [u8]) -> BitWriter<'a>
    ensures { SameOutput out.entry result.out × ◌≡◌ {A = State} (record { pen = result.pen; bytes = result.out.now }) (header_written set out.old) }
{
    let room = out.len();
    let mut writer = BitWriter::new(out);
    if header_length(set) <= room {
        write_fields(set, &mut writer);
        let sum = sum_before_pen(&writer);
        writer.write_bits(8, sum as u64);
    }
    writer
}

// The CRC-8 of the bytes before the pen.
fn sum_before_pen(writer: &BitWriter) -> u8
    ensures { result ≡ crc8 (bits_of_bytes (take writer.now.pen.byte writer.now.out.now)) }
{
    let bytes = &*writer.out;
    crc::crc8(&bytes[..writer.pen.byte.min(bytes.len())])
}

// The header before its check sum.
fn write_fields(set: FrameSetting, writer: &mut BitWriter)
    ensures { Appends (field_bits set) writer.old writer.new }
{
    write_codes(set, writer);
    write_number(set.number, writer);
    write_size(set.size, writer);
}

// The first four bytes: the sync code, the blocking bit, the codes of the block size and the sample rate, those of the
// channels and the bits of a sample, and a zero.
fn write_codes(set: FrameSetting, writer: &mut BitWriter)
    ensures { Appends (code_bits set) writer.old writer.new }
{
    writer.write_bits(15, SYNC_CODE);
    writer.write_bits(1, set.blocking as u64);
    writer.write_bits(4, size_code(set.size));
    writer.write_bits(4, 0);
    writer.write_bits(4, set.channels as u64);
    writer.write_bits(3, bits_code(set.bits));
    writer.write_bits(1, 0);
}

// How many bits of the block size are stored after the coded number (RFC 9639 section 9.1.6).
fn size_width(n: usize) -> u32
    ensures { size_bits n ≡ bits_of result (n - 1) }
{
    match size_code(n) {
        6 => 8,
        7 => 16,
        _ => 0,
    }
}

fn write_size(n: usize, writer: &mut BitWriter)
    ensures { Appends (size_bits n) writer.old writer.new }
{
    writer.write_bits(size_width(n), n.saturating_sub(1) as u64);
}
