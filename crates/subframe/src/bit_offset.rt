// A place as the loop over Rice codes carries it.
ghost use Rattle.std.specs.Prelude.{◌≡◌, ◌^◌, ◌<◌};
ghost use Rattle.subframe.specs.Private.{place_after};

use reading::Place;

// The place so many bits after a byte, fewer than 64. The byte lags: it may be the one where the code before starts.
#[derive(Clone, Copy, Debug, PartialEq, Eq)]
pub struct BitOffset {
    pub byte: usize,
    pub bits: usize,
}

impl BitOffset {
    // Whole bytes of the bits go to the byte.
    pub fn place(self) -> Place
        requires { (self.byte < 2 ^ 63) × (self.bits < 64) }
        ensures { result ≡ place_after self }
    {
        Place {
            byte: self.byte + self.bits / 8,
            bit: self.bits % 8,
        }
    }
}

impl From<Place> for BitOffset {
    ghost from_gives = { λ p o. o ≡ (record { byte = p.byte; bits = p.bit }) };

    fn from(p: Place) -> BitOffset {
        BitOffset {
            byte: p.byte,
            bits: p.bit,
        }
    }
}
