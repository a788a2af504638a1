// A channel of a frame as the writer stores it (RFC 9639 section 9.2), by rfc9639's specs/SubframeCoding.antt. The
// public function answers on every argument. Each private one writes a piece of the definition, which its contract
// names.
#![tactic(auto)]

mod residual;

ghost use Rattle.std.specs.Prelude.{◌≤◌, take};
ghost use Rattle.rfc9639.specs.declared.Candidate.TheVariants.{Fixed};
ghost use Rattle.rfc9639.specs.SubframeCoding.{plain, subframe_header_bits, coded_as};
ghost use Rattle.subframe_samples.specs.Sources.{stored_by};
ghost use Rattle.bit_writer.specs.PenWrites.{Appends};
ghost use Rattle.subframe_writer.specs.Ways.{written_as};
ghost use Rattle.subframe_writer.specs.Private.{head_and_plain};

use bit_writer::BitWriter;
use residual::write_residual;
use rfc9639::Candidate;
use subframe_samples::Source;

// The subframe's header (section 9.2.1).
fn write_head(writer: &mut BitWriter, code: u64)
    ensures { Appends (subframe_header_bits code) writer.old writer.new }
{
    writer.write_bits(1, 0);
    writer.write_bits(6, code);
    writer.write_bits(1, 0);
}

// The first samples as they are, at most `most` of them.
fn write_plain(source: &Source, width: u32, most: usize, writer: &mut BitWriter)
    requires { width ≤ 64 }
    ensures { Appends (plain width (take most (stored_by source.now))) writer.old writer.new }
{
    for i in 0..most.min(source.len()) {
        writer.write_bits(width, signed::low_bits(source.sample(i), width));
    }
}

// The header, then the first samples as they are: every subframe starts with these.
fn write_head_and_plain(source: &Source, width: u32, code: u64, most: usize, writer: &mut BitWriter)
    requires { width ≤ 64 }
    ensures { Appends (head_and_plain code width most (stored_by source.now)) writer.old writer.new }
{
    write_head(writer, code);
    write_plain(source, width, most, writer);
}

// A fixed predictor (section 9.2.5) of any order, with any parameter.
fn write_fixed(source: &Source, width: u32, order: u32, k: u32, writer: &mut BitWriter)
    requires { width ≤ 64 }
    ensures { Appends (coded_as (Fixed order k) width (stored_by source.now)) writer.old writer.new }
{
    write_head_and_plain(source, width, 8 + order as u64, order as usize, writer);
    write_residual(source, order, k, writer);
}

// The subframe, stored in the given way.
pub fn write_subframe(source: &Source, width: u32, candidate: Candidate, writer: &mut BitWriter)
    ensures { Appends (written_as candidate width (stored_by source.now)) writer.old writer.new }
{
    if 64 < width {
        return;
    }
    match candidate {
        Candidate::Constant => write_head_and_plain(source, width, 0, 1, writer),
        Candidate::Verbatim => write_head_and_plain(source, width, 1, source.len(), writer),
        Candidate::Fixed(order, k) => write_fixed(source, width, order, k, writer),
    }
}
