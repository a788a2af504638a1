// The end of a frame (RFC 9639 section 9.3): zeros up to a whole byte, then the CRC-16 of all bytes before it.
ghost use Rattle.std.specs.Prelude.{◌≡◌, ◌<◌, take};
ghost use Rattle.reading.specs.Bytes.{bits_of_bytes};
ghost use Rattle.rfc9639.specs.CheckSums.{crc16};
ghost use Rattle.bit_writer.specs.PenWrites.{State, SameOutput};
ghost use Rattle.frame_writer.specs.Private.{filled, summed};

use bit_writer::BitWriter;

pub fn write_footer(writer: &mut BitWriter)
    requires { writer.old.pen.held < 8 }
    ensures { SameOutput writer.old.out writer.new.out × ◌≡◌ {A = State} (record { pen = writer.new.pen; bytes = writer.new.out.now }) (summed (filled writer.old.pen writer.old.out.now)) }
{
    let padding = (8 - writer.pen.held) % 8;
    writer.write_bits(padding, 0);
    let sum = sum_before_pen(writer);
    writer.write_bits(16, sum as u64);
}

// The CRC-16 of the bytes before the pen.
fn sum_before_pen(writer: &BitWriter) -> u16
    ensures { result ≡ crc16 (bits_of_bytes (take writer.now.pen.byte writer.now.out.now)) }
{
    let bytes = &*writer.out;
    crc::crc16(&bytes[..writer.pen.byte.min(bytes.len())])
}
