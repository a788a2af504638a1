// Which way of storing a channel takes the fewest bits, by rfc9639's specs/SubframeCoding.antt. The function answers
// on every argument.
#![tactic(auto)]

mod offer;
mod plain;
mod tally;

ghost use Rattle.std.specs.Prelude.{◌≡◌, ◌<◌, length};
ghost use Rattle.rfc9639.specs.SubframeCoding.{fewest_of};
ghost use Rattle.subframe_samples.specs.Sources.{stored_by};
ghost use Rattle.subframe_choice.specs.Choices.{choice_of};
ghost use Rattle.subframe_choice.specs.Private.{priced_fixed, weight};

use offer::best_parameter;
use plain::{best_plain, plain_bits};
use rfc9639::Candidate;
use subframe_samples::Source;
use tally::quotient_sums;

#[derive(Clone, Copy, Debug, PartialEq, Eq)]
pub struct Choice {
    pub candidate: Candidate,
    // Of the whole subframe.
    pub bits: u64,
}

// The best of a choice and a fixed predictor with each of its parameters. Before the Rice codes stand the subframe's
// header, the warm-up samples, and the residual's header: 8, order * width and 10 bits.
fn better_fixed(best: Choice, source: &Source, width: u32, order: u32) -> Choice
    requires { (order < 5) × (order < length (stored_by source.now)) }
    ensures { result ≡ fewest_of weight best (priced_fixed width (stored_by source.now) order) }
{
    let count = source.len().saturating_sub(order as usize);
    let head = plain_bits(order as usize, width) + 10;
    let sums = quotient_sums(source, order, count);
    best_parameter(best, &sums, order, head, count as u64)
}

// The first of the candidates that have the fewest bits.
pub fn choose(source: &Source, width: u32) -> Choice
    ensures { result ≡ choice_of width (stored_by source.now) }
{
    let limit = source.len().min(5);
    let mut best = best_plain(source, width);
    for order in 0..limit {
        best = better_fixed(best, source, width, order as u32);
    }
    best
}
