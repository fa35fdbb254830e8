use group_defs::Frame;
use lists::Seq;

/// Where a page of an object lies on the disk. Pages count from 0 in their object, blocks in the disk.
#[derive(Clone, Copy, Debug, PartialEq, Eq)]
pub struct PagePlace {
    pub object: u64,
    pub page: u64,
    pub block: u64,
}

/// Pages of an object that follow each other, in blocks of the disk that follow each other.
#[derive(Clone, Copy, Debug, PartialEq, Eq)]
pub struct PageRun {
    pub object: u64,
    /// Its first page.
    pub first: u64,
    /// How many pages it has.
    pub count: u64,
    /// The block of its first page.
    pub block: u64,
}

/// What the record of a checkpoint says, with runs in place of the pages.
#[derive(Debug, Drop)]
pub struct Listing {
    pub frame: Frame,
    pub runs: Seq<PageRun>,
}

/// What the record of a checkpoint says: the group without the bytes of its pages, and where those
/// pages lie that aren't all zero.
#[derive(Debug, Drop)]
pub struct Meta {
    pub frame: Frame,
    pub pages: Seq<PagePlace>,
}

/// A page that a checkpoint writes: 4,096 bytes of an object.
#[derive(Debug, Drop)]
pub struct Page {
    pub object: u64,
    pub page: u64,
    pub bytes: Seq<u8>,
}
