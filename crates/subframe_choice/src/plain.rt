// The ways of storing a channel without prediction (RFC 9639 sections 9.2.3 and 9.2.4).
ghost use Rattle.std.specs.Prelude.{◌≡◌, ◌+◌, ◌*◌, ◌^◌, ◌<◌};
ghost use Rattle.rfc9639.specs.SubframeCoding.{uniform};
ghost use Rattle.subframe_samples.specs.Sources.{stored_by};
ghost use Rattle.subframe_choice.specs.Private.{best_plain};

use super::Choice;
use super::offer::better;
use rfc9639::Candidate;
use subframe_samples::Source;

// Whether all samples are equal.
fn is_uniform(source: &Source) -> bool
    ensures { result ≡ uniform (stored_by source.now) }
{
    let first = source.sample(0);
    for i in 1..source.len() {
        if source.sample(i) != first {
            return false;
        }
    }
    true
}

// The bits of a subframe's header and of `count` verbatim samples.
pub fn plain_bits(count: usize, width: u32) -> u64
    requires { count < 2 ^ 16 }
    ensures { result ≡ 8 + count * width }
{
    8 + count as u64 * width as u64
}

// The better of constant, where all samples are equal, and verbatim.
pub fn best_plain(source: &Source, width: u32) -> Choice
    ensures { result ≡ best_plain width (stored_by source.now) }
{
    let count = source.len();
    let verbatim = Choice {
        candidate: Candidate::Verbatim,
        bits: plain_bits(count, width),
    };
    if !is_uniform(source) {
        return verbatim;
    }
    let constant = Choice {
        candidate: Candidate::Constant,
        bits: plain_bits(count.min(1), width),
    };
    better(constant, verbatim)
}
