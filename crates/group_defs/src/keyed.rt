use crate::frame::{ObjectRec, Proc};
use tables::Keyed;

impl Keyed for ObjectRec {
    ghost key = { λ o. o.number };

    fn key(&self) -> u64 {
        self.number
    }
}

impl Keyed for Proc {
    ghost key = { λ p. p.pid };

    fn key(&self) -> u64 {
        u64::from(self.pid)
    }
}
