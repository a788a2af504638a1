// The sums of the quotients of a channel's folded residuals, one for each Rice parameter (RFC 9639 section 9.2.7.2).
ghost use Rattle.std.specs.Prelude.{◌≡◌, ◌^◌, ◌<◌, length};
ghost use Rattle.rfc9639.specs.SubframeCoding.{fixed_residuals};
ghost use Rattle.subframe_samples.specs.Sources.{stored_by};
ghost use Rattle.subframe_choice.specs.Private.{sums_of, add_quotients, Under};

use subframe_samples::Source;

// Adds the quotients of a folded residual, one to each sum.
fn add_quotients(sums: &mut [u64; 15], f: u64)
    requires { (length sums.old ≡ 15) × Under (2 ^ 60) sums.old × (f < 2 ^ 60) }
    ensures { sums.new ≡ add_quotients f 0 sums.old }
{
    for (k, sum) in sums.iter_mut().enumerate() {
        *sum += f >> k;
    }
}

// The sums over the `count` residuals of a fixed predictor.
pub fn quotient_sums(source: &Source, order: u32, count: usize) -> [u64; 15]
    requires { (count < 2 ^ 16) × (count ≡ length (fixed_residuals order (stored_by source.now))) }
    ensures { (result ≡ sums_of (fixed_residuals order (stored_by source.now))) × Under (2 ^ 60) result }
{
    let mut sums = [0u64; 15];
    for j in 0..count {
        let folded = signed::fold(source.fixed_residual(order, j));
        add_quotients(&mut sums, folded);
    }
    sums
}
