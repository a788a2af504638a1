// The residuals of a fixed predictor as Rice codes (RFC 9639 section 9.2.7): one partition, with any parameter.
ghost use Rattle.reading.specs.NumbersAsBits.{row};
ghost use Rattle.rfc9639.specs.SubframeCoding.{rice_bits, residual_bits, fixed_residuals};
ghost use Rattle.subframe_samples.specs.Sources.{stored_by};
ghost use Rattle.bit_writer.specs.PenWrites.{Appends};

use bit_writer::BitWriter;
use subframe_samples::Source;

// One residual: the quotient in unary, then the remainder.
fn write_rice(writer: &mut BitWriter, k: u32, r: i64)
    ensures { Appends (rice_bits k r) writer.old writer.new }
{
    let folded = signed::fold(r);
    writer.write_unary(number::shift_right(folded, k));
    writer.write_bits(k, folded);
}

// All residuals, one after the other.
fn write_rices(source: &Source, order: u32, k: u32, writer: &mut BitWriter)
    ensures { Appends (row (rice_bits k) (fixed_residuals order (stored_by source.now))) writer.old writer.new }
{
    for j in 0..source.len().saturating_sub(order as usize) {
        write_rice(writer, k, source.fixed_residual(order, j));
    }
}

// The coding method 0, the partition order 0, the parameter of the one partition, and its residuals.
pub fn write_residual(source: &Source, order: u32, k: u32, writer: &mut BitWriter)
    ensures { Appends (residual_bits k (fixed_residuals order (stored_by source.now))) writer.old writer.new }
{
    writer.write_bits(2, 0);
    writer.write_bits(4, 0);
    writer.write_bits(4, k as u64);
    write_rices(source, order, k, writer);
}
