// Which samples fit the bits (document 01, "The added writer").
ghost use Rattle.std.specs.Prelude.{◌≡◌, ◌≤◌};
ghost use Rattle.rfc9639.specs.Write.{fits, all_fit};

// A sample fits w bits in two's complement if and only if its folded form is below 2 ^ w.
fn does_fit(x: i32, bits: u32) -> bool
    requires { (1 ≤ bits) × (bits ≤ 32) }
    ensures { result ≡ fits bits x }
{
    signed::fold(x as i64) < 1u64 << bits
}

pub fn all_fit(samples: &[i32], bits: u32) -> bool
    requires { (1 ≤ bits) × (bits ≤ 32) }
    ensures { result ≡ all_fit bits samples.now }
{
    samples.iter().all(|x| does_fit(*x, bits))
}
