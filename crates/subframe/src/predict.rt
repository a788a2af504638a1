// Prediction in place (RFC 9639 sections 9.2.5 and 9.2.6): a slice that holds the warm-up samples and the residual
// holds the samples in the end. The sums are exact: 32 products of a 15-bit and a 32-bit number stay below 2 ^ 51.
ghost use Rattle.std.specs.Prelude.{◌≡◌, reverse, ◌^◌, ◌≤◌, ◌<◌, pos, nat_abs, ◌+ℤ◌, ◌*ℤ◌, length, take};
ghost use Rattle.rfc9639.specs.Prediction.{dot as dot_of, fixed_coefficients};
ghost use Rattle.rfc9639.specs.Integers.{wrapped, shift_down};
ghost use Rattle.subframe.specs.Private.{Predictable, predicted_in_place};

fn mul_add(sum: i64, c: i32, x: i32) -> i64
    requires { (nat_abs sum < 2 ^ 62) × (nat_abs c < 2 ^ 15) }
    ensures { result ≡ sum +ℤ c *ℤ x }
{
    sum + (c as i64) * (x as i64)
}

// A sample, from its sum of products and its residual.
fn restore(sum: i64, shift: u32, residual: i32) -> i32
    requires { nat_abs sum < 2 ^ 62 }
    ensures { result ≡ wrapped 32 (shift_down shift sum +ℤ residual) }
{
    number::low32(number::shift_down(sum, shift) + residual as i64)
}

// The sum of the products of the coefficients and the latest samples. The latest sample comes last, since the others are
// known before it.
fn dot<const N: usize>(coefficients: &[i32; N], before: &[i32]) -> i64
    requires { Predictable 32 coefficients.now before.now }
    ensures { (result ≡ dot_of (pos 0) coefficients.now (reverse before.now)) × (nat_abs result < 2 ^ 62) }
{
    let mut sum: i64 = 0;
    for j in (0..N).rev() {
        sum = mul_add(sum, coefficients[j], before[before.len() - 1 - j]);
    }
    sum
}

// The sum of the products of a fixed predictor of order 1 to 3 (RFC 9639 section 9.2.5), by sums and differences.
fn fixed_sum(order: usize, before: &[i32]) -> i64
    requires { (1 ≤ order) × (order ≤ 3) × (order ≤ length before.now) }
    ensures { (result ≡ dot_of (pos 0) (fixed_coefficients order) (reverse before.now)) × (nat_abs result < 2 ^ 62) }
{
    let last = before.len() - 1;
    let a = before[last] as i64;
    if order == 1 {
        return a;
    }
    let b = before[last - 1] as i64;
    if order == 2 {
        return 2 * a - b;
    }
    let c = before[last - 2] as i64;
    3 * (a - b) + c
}

// For a fixed predictor of order 1 to 3.
fn predict_fixed(order: usize, out: &mut [i32])
    requires { (1 ≤ order) × (order ≤ 3) × (order ≤ length out.old) }
    ensures { out.new ≡ predicted_in_place (fixed_coefficients order) 0 out.old }
{
    for i in order..out.len() {
        let sum = fixed_sum(order, &out[i - order..i]);
        out[i] = restore(sum, 0, out[i]);
    }
}

// A linear predictor (RFC 9639 section 9.2.6): the coefficients, that of the latest sample first, and the shift by which
// the sum of the products is moved down.
#[derive(Clone, Copy)]
pub struct Predictor<'a> {
    pub coefficients: &'a [i32],
    pub shift: u32,
}

impl Predictor<'_> {
    // By N coefficients. N is a constant, so the sum of each sample is straight code. The coefficients are copied into an
    // array of their own, and the shift is copied: nothing that is stored into a block can change them, so they stay in
    // registers.
    fn predict_by_taps<const N: usize>(&self, out: &mut [i32])
        requires { (length self.now.coefficients.now ≡ N) × Predictable 32 self.now.coefficients.now out.old }
        ensures { out.new ≡ predicted_in_place self.now.coefficients.now self.now.shift out.old }
    {
        let Predictor {
            coefficients,
            shift,
        } = *self;
        let mut taps = [0i32; N];
        taps.copy_from_slice(coefficients);
        for i in N..out.len() {
            let sum = dot(&taps, &out[i - N..i]);
            out[i] = restore(sum, shift, out[i]);
        }
    }

    // For an order of at most 12, as in nearly all streams.
    fn predict_lpc_low_order(&self, out: &mut [i32])
        requires { Predictable 12 self.now.coefficients.now out.old }
        ensures { out.new ≡ predicted_in_place self.now.coefficients.now self.now.shift out.old }
    {
        match self.coefficients.len() {
            0 => self.predict_by_taps::<0>(out),
            1 => self.predict_by_taps::<1>(out),
            2 => self.predict_by_taps::<2>(out),
            3 => self.predict_by_taps::<3>(out),
            4 => self.predict_by_taps::<4>(out),
            5 => self.predict_by_taps::<5>(out),
            6 => self.predict_by_taps::<6>(out),
            7 => self.predict_by_taps::<7>(out),
            8 => self.predict_by_taps::<8>(out),
            9 => self.predict_by_taps::<9>(out),
            10 => self.predict_by_taps::<10>(out),
            11 => self.predict_by_taps::<11>(out),
            _ => self.predict_by_taps::<12>(out),
        }
    }

    // For an order above 12.
    fn predict_lpc_high_order(&self, out: &mut [i32])
        requires { (12 < length self.now.coefficients.now) × Predictable 32 self.now.coefficients.now out.old }
        ensures { out.new ≡ predicted_in_place self.now.coefficients.now self.now.shift out.old }
    {
        match self.coefficients.len() {
            13 => self.predict_by_taps::<13>(out),
            14 => self.predict_by_taps::<14>(out),
            15 => self.predict_by_taps::<15>(out),
            16 => self.predict_by_taps::<16>(out),
            17 => self.predict_by_taps::<17>(out),
            18 => self.predict_by_taps::<18>(out),
            19 => self.predict_by_taps::<19>(out),
            20 => self.predict_by_taps::<20>(out),
            21 => self.predict_by_taps::<21>(out),
            22 => self.predict_by_taps::<22>(out),
            23 => self.predict_by_taps::<23>(out),
            24 => self.predict_by_taps::<24>(out),
            25 => self.predict_by_taps::<25>(out),
            26 => self.predict_by_taps::<26>(out),
            27 => self.predict_by_taps::<27>(out),
            28 => self.predict_by_taps::<28>(out),
            29 => self.predict_by_taps::<29>(out),
            30 => self.predict_by_taps::<30>(out),
            31 => self.predict_by_taps::<31>(out),
            _ => self.predict_by_taps::<32>(out),
        }
    }

    // claxon has two predictors, chosen by the order. Fixed predictors of order 1 to 3 have a third here, which needs no
    // products. All meet one definition.
    pub fn predict(&self, out: &mut [i32])
        requires { Predictable 32 self.now.coefficients.now out.old }
        ensures { out.new ≡ predicted_in_place self.now.coefficients.now self.now.shift out.old }
    {
        let Predictor {
            coefficients,
            shift,
        } = *self;
        match coefficients {
            [1] if shift == 0 => predict_fixed(1, out),
            [2, -1] if shift == 0 => predict_fixed(2, out),
            [3, -3, 1] if shift == 0 => predict_fixed(3, out),
            _ if coefficients.len() <= 12 => self.predict_lpc_low_order(out),
            _ => self.predict_lpc_high_order(out),
        }
    }
}

// The coefficients of RFC 9639 section 9.2.5, each row padded with zeros.
pub fn fixed_coefficients(order: usize) -> [i32; 4]
    requires { order ≤ 4 }
    ensures { take order result ≡ fixed_coefficients order }
{
    match order {
        0 => [0, 0, 0, 0],
        1 => [1, 0, 0, 0],
        2 => [2, -1, 0, 0],
        3 => [3, -3, 1, 0],
        _ => [4, -6, 4, -1],
    }
}
