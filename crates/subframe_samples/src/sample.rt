// One sample of a subframe (RFC 9639 section 4.2), computed from the lent samples.
ghost use Rattle.std.specs.Prelude.{◌≡◌, ◌+◌, ◌^◌, ◌≤◌, ◌<◌, pos, nat_abs, length, get_or};
ghost use Rattle.rfc9639.specs.Integers.{shift_down};
ghost use Rattle.rfc9639.specs.Write.{mid_of, side_of};
ghost use Rattle.subframe_samples.specs.Sources.{stored_by};

use super::Source;
use rfc9639::Lane;

// Half of a sum, rounded down.
fn half(sum: i64) -> i64
    ensures { result ≡ shift_down 1 sum }
{
    number::shift_down(sum, 1)
}

fn mid(left: i32, right: i32) -> i64
    ensures { result ≡ mid_of left right }
{
    half(left as i64 + right as i64)
}

fn side(left: i32, right: i32) -> i64
    ensures { result ≡ side_of left right }
{
    left as i64 - right as i64
}

// Sample i of each of the first two channels.
fn pair_at(samples: &[i32], size: usize, i: usize) -> (i32, i32)
    requires { size + i < length samples.now }
    ensures { (result.0 ≡ get_or samples.now i (pos 0)) × (result.1 ≡ get_or samples.now (size + i) (pos 0)) }
{
    (samples[i], samples[size + i])
}

// Sample i of the subframe, which has it.
pub fn sample_at(source: &Source, i: usize) -> i64
    requires { i < length (stored_by source.now) }
    ensures { (result ≡ get_or (stored_by source.now) i (pos 0)) × (nat_abs result ≤ 2 ^ 32) }
{
    let Source {
        samples,
        size,
        lane,
    } = *source;
    let size = size as usize;
    match lane {
        Lane::Channel(c) => samples[c as usize * size + i] as i64,
        Lane::Mid => {
            let (left, right) = pair_at(samples, size, i);
            mid(left, right)
        }
        Lane::Side => {
            let (left, right) = pair_at(samples, size, i);
            side(left, right)
        }
    }
}
