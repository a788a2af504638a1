// The fixed predictors (RFC 9639 section 9.2.5), a product for each coefficient. The sums are exact: a coefficient is at
// most 6 in size, a sample at most 2 ^ 32.
ghost use Rattle.std.specs.Prelude.{reverse, take, ◌≡◌, ◌+◌, ◌*◌, ◌^◌, ◌≤◌, ◌<◌, pos, nat_abs, ◌+ℤ◌, ◌*ℤ◌, length, get_or};
ghost use Rattle.number.specs.Private.{Small};
ghost use Rattle.rfc9639.specs.Prediction.{dot};
ghost use Rattle.subframe_samples.specs.Sources.{stored_by};
ghost use Rattle.subframe_samples.specs.Private.{predicted_at, residual_at};

use super::Source;
use super::sample::sample_at;

// Adds the product of a coefficient and sample i to a sum.
fn add_product(source: &Source, i: usize, sum: i64, coefficient: i64) -> i64
    requires { (i < length (stored_by source.now)) × (nat_abs sum ≤ 18 * 2 ^ 32) × (nat_abs coefficient ≤ 6) }
    ensures { (result ≡ sum +ℤ coefficient *ℤ get_or (stored_by source.now) i (pos 0)) × (nat_abs result ≤ nat_abs sum + 6 * 2 ^ 32) }
{
    sum + coefficient * sample_at(source, i)
}

// The products of the coefficients and the samples before sample i, the latest first, added up.
fn predict(source: &Source, coefficients: &[i64], i: usize) -> i64
    requires { (length coefficients.now ≤ i) × (i < length (stored_by source.now)) × (length coefficients.now ≤ 4) × Small 7 coefficients.now }
    ensures { (result ≡ dot (pos 0) coefficients.now (reverse (take i (stored_by source.now)))) × (nat_abs result ≤ 24 * 2 ^ 32) }
{
    let mut sum = 0;
    for (k, coefficient) in coefficients.iter().enumerate() {
        sum = add_product(source, i - 1 - k, sum, *coefficient);
    }
    sum
}

// The prediction of sample i. An order above 4 has the coefficients of order 4, as in the definition.
fn predicted_at(source: &Source, order: u32, i: usize) -> i64
    requires { (order ≤ i) × (i < length (stored_by source.now)) }
    ensures { (result ≡ predicted_at order (stored_by source.now) i) × (nat_abs result ≤ 24 * 2 ^ 32) }
{
    match order {
        0 => 0,
        1 => predict(source, &[1], i),
        2 => predict(source, &[2, -1], i),
        3 => predict(source, &[3, -3, 1], i),
        _ => predict(source, &[4, -6, 4, -1], i),
    }
}

// Sample i less its prediction.
pub fn residual_at(source: &Source, order: u32, i: usize) -> i64
    requires { (order ≤ i) × (i < length (stored_by source.now)) }
    ensures { (result ≡ residual_at order (stored_by source.now) i) × (nat_abs result < 2 ^ 38) }
{
    sample_at(source, i) - predicted_at(source, order, i)
}
