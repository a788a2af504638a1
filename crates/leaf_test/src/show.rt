// How the lines show what is no plain number.
use error::Refusal;
use reading::Place;
use std::fmt;

// Bytes, each as two hexadecimal digits.
#[derive(Drop)]
pub struct Hex<'a>(pub &'a [u8]);

impl fmt::Display for Hex<'_> {
    fn fmt<W: fmt::Write>(&self, f: &mut fmt::Formatter<W>) -> fmt::Result {
        for byte in self.0 {
            write!(f, "{byte:02x}")?;
        }
        Ok(())
    }
}

// Samples, with a space before each.
#[derive(Drop)]
pub struct Samples<'a>(pub &'a [i32]);

impl fmt::Display for Samples<'_> {
    fn fmt<W: fmt::Write>(&self, f: &mut fmt::Formatter<W>) -> fmt::Result {
        for sample in self.0 {
            write!(f, " {sample}")?;
        }
        Ok(())
    }
}

// A place as byte:bit.
#[derive(Drop)]
pub struct At(pub Place);

impl fmt::Display for At {
    fn fmt<W: fmt::Write>(&self, f: &mut fmt::Formatter<W>) -> fmt::Result {
        let Place { byte, bit } = self.0;
        write!(f, "{byte}:{bit}")
    }
}

// A value, or the number of the refusal.
#[derive(Drop)]
pub struct Answer<T>(pub Result<T, Refusal>);

impl<T: fmt::Display> fmt::Display for Answer<T> {
    fn fmt<W: fmt::Write>(&self, f: &mut fmt::Formatter<W>) -> fmt::Result {
        match &self.0 {
            Ok(value) => write!(f, "{value}"),
            Err(e) => write!(f, "refused {}", u8::from(*e)),
        }
    }
}
