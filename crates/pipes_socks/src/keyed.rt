use crate::channel::Channel;
use crate::queues::Queues;
use crate::streams::{Pair, Pipe};
use tables::Keyed;

impl Keyed for Channel {
    ghost key = { λ c. c.number };

    fn key(&self) -> u64 {
        self.number()
    }
}

impl Keyed for Queues {
    ghost key = { λ e. e.number };

    fn key(&self) -> u64 {
        self.number()
    }
}

impl Keyed for Pipe {
    ghost key = { λ p. p.number };

    fn key(&self) -> u64 {
        self.number
    }
}

impl Keyed for Pair {
    ghost key = { λ p. p.number };

    fn key(&self) -> u64 {
        self.number
    }
}
