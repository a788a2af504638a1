// One channel of a block (RFC 9639 section 9.2), after claxon's subframe.rs. `decode` answers on every argument: with the
// place after the channel, or with why it is refused. It leaves the samples of the definition in the caller's slice, or
// zeros where it refuses.
#![tactic(auto)]

mod bit_offset;
mod header;
mod predict;
mod residual;

ghost use Rattle.std.specs.Prelude.{◌≡◌, ◌≤◌, ◌<◌, length, map};
ghost use Rattle.reading.specs.Places.{run_at};
ghost use Rattle.rfc9639.specs.Subframe.{fixed, lpc, samples_by_type, order_of, subframe_after_header};
ghost use Rattle.rfc9639.specs.Integers.{shift_up};
ghost use Rattle.subframe.specs.Answers.{samples_at, Left, subframe_at};
ghost use Rattle.subframe.specs.Private.{Orderly, Predictable, predicted_block, lpc_block};

use error::Refusal;
use header::{order_of, read_quantizer, read_subframe_header};
use predict::{Predictor, fixed_coefficients};
use reading::Place;
use residual::{decode_residual, decode_verbatim, read_sample};
use rfc9639::{SubframeHeader, SubframeType};

fn decode_constant(s: &[u8], at: Place, width: u32, out: &mut [i32]) -> Result<Place, Refusal>
    requires { width ≤ 32 }
    ensures { samples_at result out.new ≡ run_at (samples_by_type SubframeType.Constant width (length out.old)) s.now at }
{
    let (x, p) = read_sample(s, at, width)?;
    block::fill(out, x);
    Ok(p)
}

// What follows the warm-up samples and the coefficients (RFC 9639 sections 9.2.5 and 9.2.6): the residual into the rest
// of the block, then prediction in place.
fn decode_predicted(
    s: &[u8],
    at: Place,
    predictor: &Predictor<'_>,
    out: &mut [i32],
) -> Result<Place, Refusal>
    requires { Predictable 32 predictor.now.coefficients.now out.old }
    ensures { samples_at result out.new ≡ run_at (predicted_block predictor.now.coefficients.now predictor.now.shift out.old) s.now at }
{
    let order = predictor.coefficients.len();
    let n = out.len();
    let p = decode_residual(s, at, order, n, &mut out[order..])?;
    predictor.predict(out);
    Ok(p)
}

// RFC 9639 section 9.2.5: a fixed predictor is a linear one with known coefficients and no shift.
fn decode_fixed(
    s: &[u8],
    at: Place,
    width: u32,
    order: usize,
    out: &mut [i32],
) -> Result<Place, Refusal>
    requires { (width ≤ 32) × (order ≤ 4) × (order ≤ length out.old) }
    ensures { samples_at result out.new ≡ run_at (fixed order width (length out.old)) s.now at }
{
    let p = decode_verbatim(s, at, width, &mut out[..order])?;
    let coefficients = fixed_coefficients(order);
    let predictor = Predictor {
        coefficients: &coefficients[..order],
        shift: 0,
    };
    decode_predicted(s, p, &predictor, out)
}

// RFC 9639 section 9.2.6, after the shift: the coefficients, and the samples that they predict.
fn decode_lpc_after_shift(
    s: &[u8],
    at: Place,
    precision: u32,
    shift: u32,
    order: usize,
    out: &mut [i32],
) -> Result<Place, Refusal>
    requires { (precision ≤ 15) × (shift < 16) × (order ≤ 32) × (order ≤ length out.old) }
    ensures { samples_at result out.new ≡ run_at (lpc_block order precision shift out.old) s.now at }
{
    let mut coefficients = [0i32; 32];
    let p = decode_verbatim(s, at, precision, &mut coefficients[..order])?;
    let predictor = Predictor {
        coefficients: &coefficients[..order],
        shift,
    };
    decode_predicted(s, p, &predictor, out)
}

// RFC 9639 section 9.2.6: the warm-up samples, the precision and the shift, and the rest.
fn decode_lpc(
    s: &[u8],
    at: Place,
    width: u32,
    order: usize,
    out: &mut [i32],
) -> Result<Place, Refusal>
    requires { (width ≤ 32) × (order ≤ 32) × (order ≤ length out.old) }
    ensures { samples_at result out.new ≡ run_at (lpc order width (length out.old)) s.now at }
{
    let p = decode_verbatim(s, at, width, &mut out[..order])?;
    let ((precision, shift), q) = read_quantizer(s, p)?;
    decode_lpc_after_shift(s, q, precision, shift, order, out)
}

// The samples of a subframe by its type, `width` bits each: the wasted bits are not stored.
fn decode_kind(
    s: &[u8],
    at: Place,
    kind: SubframeType,
    width: u32,
    out: &mut [i32],
) -> Result<Place, Refusal>
    requires { (width ≤ 32) × Orderly kind × (order_of kind ≤ length out.old) }
    ensures { samples_at result out.new ≡ run_at (samples_by_type kind width (length out.old)) s.now at }
{
    match kind {
        SubframeType::Constant => decode_constant(s, at, width, out),
        SubframeType::Verbatim => decode_verbatim(s, at, width, out),
        SubframeType::Fixed(order) => decode_fixed(s, at, width, order, out),
        SubframeType::Lpc(order) => decode_lpc(s, at, width, order, out),
    }
}

// Puts the wasted bits back, as zeros (RFC 9639 section 9.2.2). Mostly there are none, and no sample is written: the
// compiler then leaves the loop out. The test is in the loop since only a sample that was read is known to fit 32 bits.
fn shift_all(out: &mut [i32], wasted: u32)
    ensures { out.new ≡ map (shift_up wasted) out.old }
{
    for x in out.iter_mut() {
        let stored = *x;
        if wasted != 0 {
            *x = number::shift_up(stored, wasted);
        }
    }
}

// What follows a subframe's header.
fn decode_after_header(
    s: &[u8],
    at: Place,
    h: SubframeHeader,
    width: u32,
    out: &mut [i32],
) -> Result<Place, Refusal>
    requires { (width ≤ 32) × Orderly h.kind × (h.wasted ≤ width) }
    ensures { samples_at result out.new ≡ run_at (subframe_after_header (length out.old) width h) s.now at }
{
    if !reading::is_inside(s, at) {
        return Err(Refusal::CutShort);
    }
    if out.len() < order_of(h.kind) {
        return Err(Refusal::BadShape);
    }
    let p = decode_kind(s, at, h.kind, width - h.wasted, out)?;
    shift_all(out, h.wasted);
    Ok(p)
}

// A header and what follows it. No channel has samples of more than 32 bits, so such a width is a bad argument.
fn decode_subframe(s: &[u8], at: Place, width: u32, out: &mut [i32]) -> Result<Place, Refusal>
    ensures { samples_at result out.new ≡ subframe_at width (length out.old) s.now at }
{
    if 32 < width {
        return Err(Refusal::BadArgument);
    }
    let (h, p) = read_subframe_header(s, at, width)?;
    decode_after_header(s, p, h, width, out)
}

// One channel, of as many samples as `out` has, `width` bits each. On a refusal `out` is filled with zeros.
pub fn decode(s: &[u8], at: Place, width: u32, out: &mut [i32]) -> Result<Place, Refusal>
    ensures { Left (subframe_at width (length out.old) s.now at) (length out.old) result out.new }
{
    let decoded = decode_subframe(s, at, width, out);
    if decoded.is_err() {
        block::fill(out, 0);
    }
    decoded
}
