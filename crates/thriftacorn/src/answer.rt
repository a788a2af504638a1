// An answer as other languages get it: a number, and what is reported beside it.
ghost use Rattle.std.specs.Prelude.{◌≡◌};
ghost use Rattle.thriftacorn.specs.Private.{numbered};

use error::Refusal;

// 0 and the answer's value, or the refusal's number and what is reported of a refusal.
pub fn numbered<T: Drop>(answer: Result<T, Refusal>, nothing: T) -> (u8, T)
    ensures { result ≡ numbered answer nothing }
{
    match answer {
        Ok(value) => (0, value),
        Err(e) => (u8::from(e), nothing),
    }
}
