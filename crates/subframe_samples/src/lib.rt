// What each subframe of a frame stores (RFC 9639 section 4.2), sample by sample, from lent samples that stand channel
// after channel: a channel as it is, or the mid or side of the first two. Nothing is copied: a sample is computed where
// it is needed. Each function answers on every argument, by the definition's `stored`; past its end a sample is 0.
#![tactic(auto)]

mod predict;
mod sample;

ghost use Rattle.std.specs.Prelude.{◌≡◌, ◌-◌, ◌*◌, ◌^◌, ◌<◌, min, pos, nat_abs, length, get_or};
ghost use Rattle.rfc9639.specs.SubframeCoding.{fixed_residuals};
ghost use Rattle.subframe_samples.specs.Sources.{stored_by};

use predict::residual_at;
use rfc9639::Lane;
use sample::sample_at;

// Which of the lent samples a subframe stores: `size` samples a channel.
#[derive(Clone, Copy)]
pub struct Source<'a> {
    pub samples: &'a [i32],
    pub size: u16,
    pub lane: Lane,
}

// How many of `len` samples belong to channel c, at `size` samples a channel.
fn channel_len(len: usize, size: u16, c: u32) -> usize
    ensures { result ≡ min size (len - c * size) }
{
    let start = c as usize * size as usize;
    (size as usize).min(len.saturating_sub(start))
}

impl Source<'_> {
    // How many samples the subframe stores: `size` of them, if the lent samples suffice.
    pub fn len(&self) -> usize
        ensures { (result ≡ length (stored_by self.now)) × (result < 2 ^ 16) }
    {
        let all = self.samples.len();
        match self.lane {
            Lane::Channel(c) => channel_len(all, self.size, c),
            // As many pairs as the second channel has samples.
            Lane::Mid => channel_len(all, self.size, 1),
            Lane::Side => channel_len(all, self.size, 1),
        }
    }

    // Sample i of the subframe. A side sample needs one bit more than the samples of its channels.
    pub fn sample(&self, i: usize) -> i64
        ensures { result ≡ get_or (stored_by self.now) i (pos 0) }
    {
        if i < self.len() {
            sample_at(self, i)
        } else {
            0
        }
    }

    // Residual j of a fixed predictor (RFC 9639 section 9.2.5): that of sample order + j. The bound on its size is for
    // callers that add up residuals.
    pub fn fixed_residual(&self, order: u32, j: usize) -> i64
        ensures { (result ≡ get_or (fixed_residuals order (stored_by self.now)) j (pos 0)) × (nat_abs result < 2 ^ 38) }
    {
        let warm_up = order as usize;
        if j < self.len().saturating_sub(warm_up) {
            residual_at(self, order, warm_up + j)
        } else {
            0
        }
    }
}
