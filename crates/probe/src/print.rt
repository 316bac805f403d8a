// What a call told, as its answer begins: `ok` and the call's numbers, or `refused`, the reason's number and the place.
use refusal::Refusal;
use std::fmt;
use std::fmt::{Display, Formatter};

#[derive(Clone, Copy)]
pub struct Told<const N: usize>(pub Result<[usize; N], Refusal>);

impl<const N: usize> Display for Told<N> {
    fn fmt<W: fmt::Write>(&self, f: &mut Formatter<W>) -> fmt::Result {
        match self.0 {
            Ok(numbers) => {
                f.write_str("ok")?;
                for n in numbers {
                    write!(f, " {n}")?;
                }
                Ok(())
            }
            Err(refused) => write!(f, "refused {} {}", u8::from(refused.reason), refused.place),
        }
    }
}
