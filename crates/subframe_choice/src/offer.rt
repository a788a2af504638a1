// Choices compared by their bits. Of two with as many bits the earlier is taken.
ghost use Rattle.std.specs.Prelude.{◌≡◌, [], ◌∷◌, ◌^◌, ◌<◌, length};
ghost use Rattle.rfc9639.specs.SubframeCoding.{fewest_of};
ghost use Rattle.subframe_choice.specs.Private.{weight, Under, offers};

use super::Choice;
use rfc9639::Candidate;

pub fn better(best: Choice, other: Choice) -> Choice
    ensures { result ≡ fewest_of weight best (other ∷ []) }
{
    if other.bits < best.bits { other } else { best }
}

// The best of a choice and a fixed predictor with each of its parameters: `head` bits, then `count` residuals. `sums`
// has the sum of their quotients for each parameter.
pub fn best_parameter(best: Choice, sums: &[u64; 15], order: u32, head: u64, count: u64) -> Choice
    requires { (length sums.now ≡ 15) × Under (2 ^ 60) sums.now × (head < 2 ^ 60) × (count < 2 ^ 16) }
    ensures { result ≡ fewest_of weight best (offers order head count 0 sums.now) }
{
    let mut found = best;
    for k in 0..15 {
        let offer = Choice {
            candidate: Candidate::Fixed(order, k as u32),
            bits: head + sums[k] + count * (k as u64 + 1),
        };
        found = better(found, offer);
    }
    found
}
