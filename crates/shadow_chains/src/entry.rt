use crate::face::Face;
use tables::Keyed;

/// A face and the number of its object.
#[derive(Debug, Drop)]
pub struct Entry {
    pub number: u64,
    pub face: Face,
}

impl Keyed for Entry {
    ghost key = { λ entry. entry.number };

    fn key(&self) -> u64 {
        self.number
    }
}
