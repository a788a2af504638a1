// Writes bits into a lent output, most significant first: the counterpart of `input`. A writer holds the output, and a
// pen: the byte that it stands at, and the bits of that byte that it holds and has not written yet. Each function
// answers on every argument. Those that write promise the `inked` (specs/PenWrites.antt) of the bits that they are to
// write; `written` lends the whole bytes.
#![tactic(auto)]

#[cfg(test)]
mod tests;

ghost use Rattle.std.specs.Prelude.{◌≡◌, ◌+◌, ◌^◌, ◌≤◌, ◌<◌, length, take};
ghost use Rattle.reading.specs.NumbersAsBits.{bits_of, unary};
ghost use Rattle.bit_writer.specs.PenWrites.{State, ink, is_pen, fresh, SameOutput, Appends};

#[derive(Clone, Copy, Debug, PartialEq, Eq)]
pub struct Pen {
    pub byte: usize,
    // How many bits of the byte being filled it holds, at most seven, and which.
    pub held: u32,
    pub bits: u64,
}

impl Pen {
    // Whether it holds at most seven bits, and no others.
    fn is_pen(self) -> bool
        ensures { result ≡ is_pen self }
    {
        self.held < 8 && self.bits >> self.held == 0
    }
}

#[derive(Drop)]
pub struct BitWriter<'a> {
    pub out: &'a mut [u8],
    pub pen: Pen,
}

impl<'a> BitWriter<'a> {
    // At the start of an output.
    pub fn new(out: &'a mut [u8]) -> BitWriter<'a>
        ensures { (result.out ≡ out.entry) × (result.pen ≡ fresh) }
    {
        BitWriter {
            out,
            pen: Pen {
                byte: 0,
                held: 0,
                bits: 0,
            },
        }
    }
}

impl BitWriter<'_> {
    // All that is written: the bytes before the pen, lent where they lie.
    pub fn written(&self) -> &[u8]
        ensures bytes { result.now ≡ take self.now.pen.byte self.now.out.now }
        ensures place { result.ref_ptr ≡ self.now.out.ref_ptr }
    {
        &self.out[..self.pen.byte.min(self.out.len())]
    }

    // The low n bits of v. Each turn of the loop fills the current byte as far as it can.
    pub fn write_bits(&mut self, n: u32, v: u64)
        ensures { Appends (bits_of n v) self.old self.new }
    {
        if !self.pen.is_pen() {
            return;
        }
        let mut left = n;
        while 0 < left {
            if self.out.len() <= self.pen.byte {
                return;
            }
            let m = (8 - self.pen.held).min(left);
            self.put(m, number::shift_right(v, left - m) % (1 << m));
            left -= m;
        }
    }

    // q zeros, and the one that ends them. It stops where the output ends, however many are left.
    pub fn write_unary(&mut self, q: u64)
        ensures { Appends (unary q) self.old self.new }
    {
        if !self.pen.is_pen() {
            return;
        }
        let mut left = q;
        while 32 <= left {
            if self.out.len() <= self.pen.byte {
                return;
            }
            self.write_bits(32, 0);
            left -= 32;
        }
        self.write_bits(left as u32 + 1, 1);
    }

    // Adds m bits, for which the byte being filled has room. Once it is full, it is written.
    fn put(&mut self, m: u32, bits: u64)
        requires { (self.old.pen.bits < 2 ^ self.old.pen.held) × (self.old.pen.byte < length self.old.out.now) × (0 < m) × (self.old.pen.held + m ≤ 8) × (bits < 2 ^ m) }
        ensures same { SameOutput self.old.out self.new.out }
        ensures written { ◌≡◌ {A = State} (record { pen = self.new.pen; bytes = self.new.out.now }) (ink (bits_of m bits) self.old.pen self.old.out.now) }
    {
        let Pen {
            byte,
            held,
            bits: before,
        } = self.pen;
        let all = (before << m) + bits;
        if held + m < 8 {
            self.pen.held += m;
            self.pen.bits = all;
        } else {
            self.out[byte] = all as u8;
            self.pen = Pen {
                byte: byte + 1,
                held: 0,
                bits: 0,
            };
        }
    }
}
