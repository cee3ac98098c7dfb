// The groups of one number: first all are gathered into an array, then the number is formed from them (rules 1.1 to 1.5).
ghost use Rattle.std.specs.Prelude.{◌≡◌, ◌+◌, ◌^◌, ◌<◌, List, ℕ, length, take};
ghost use Rattle.number.specs.Groups.{value};
ghost use Rattle.number.specs.Reading.{from, formed};
ghost use Rattle.number.specs.Finding.{finds};
ghost use Rattle.number.specs.Inside.{Kept, Gathered};

use crate::{Fault, Number};
use std::marker::Model;

// A group has seven bits: a byte of 128 or more says that another group follows (rule 1.1).
pub(crate) const RADIX: u64 = 128;

// The groups of a number: the first `count` of the array, of which there is at least one.
#[derive(Drop)]
pub(crate) struct Groups {
    all: [u64; Number::GROUPS],
    count: usize,
    // The last of them. Kept by itself, it needs no index, and the compiler has the array in registers (docs/PERFORMANCE.md).
    last: u64,
}

impl Model for Groups {
    ghost Value = { List ℕ };

    ghost view = { λ g. take g.count g.all };

    ghost invariant = { λ g. Kept g.all g.count g.last };
}

impl Groups {
    // Gathers the groups at the front of the bytes, up to the first after which none follows (rule 1.1); or the fault that is there instead.
    pub(crate) fn gather(bytes: &[u8]) -> Result<Self, Fault>
        ensures { Gathered bytes.now result }
    {
        let mut all = [0; Number::GROUPS];
        for (n, group) in all.iter_mut().enumerate() {
            let Some(byte) = bytes.get(n) else {
                return Err(Fault::Ends);
            };
            let byte = u64::from(*byte);
            *group = byte;
            if byte < RADIX {
                return Ok(Groups {
                    all,
                    count: n + 1,
                    last: byte,
                });
            }
            *group = byte - RADIX;
        }
        Err(Fault::TooLarge)
    }

    // Forms the number that began at a byte: first the form is tested, then the size (rules 1.3 to 1.5).
    pub(crate) fn form(self, at: usize) -> Result<Number, Fault>
        requires { at + length self < 2 ^ 64 }
        ensures { finds result ≡ from at (formed self) }
    {
        if 1 < self.count && self.last == 0 {
            return Err(Fault::NotShortest);
        }
        let value = self.value();
        if Number::LARGEST < value {
            return Err(Fault::TooLarge);
        }
        Ok(Number {
            value,
            next: at + self.count,
        })
    }

    // The value of the groups (rule 1.2).
    fn value(&self) -> u64
        ensures { result ≡ value self.now }
    {
        let mut value = 0;
        let mut weight = 1;
        for (i, group) in self.all.iter().enumerate() {
            value += group * weight;
            if self.count <= i + 1 {
                break;
            }
            weight *= RADIX;
        }
        value
    }
}
