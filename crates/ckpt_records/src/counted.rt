ghost use Rattle.std.specs.Prelude.{◌≡◌, ◌++◌, OnOk};
ghost use Rattle.ckpt_records.specs.Gives.{Gives};
ghost use Rattle.ckpt_records.specs.Fits.{ListFits};
ghost use Rattle.ckpt_records.specs.Codec.{list_at, times_at, with_count};

use crate::error::ReadError;
use crate::field::Field;
use crate::numbers::{put_u64, u64_at};
use lists::Seq;
use std::alloc::{AllocError, Global};

fn times_of<T: Field + Drop>(
    alloc: Global,
    format: u8,
    count: u64,
    bytes: &[u8],
) -> Result<(Vec<T>, &[u8]), ReadError>
    ensures { Gives (λ x. (x.0.items, x.1.now)) result
        (times_at (T.reads format) count bytes.now) }
{
    let mut items = Vec::new(alloc);
    let mut rest = bytes;
    for _ in 0..count {
        let (item, after) = T::read(alloc, format, rest)?;
        items.push(item)?;
        rest = after;
    }
    Ok((items, rest))
}

/// Reads a count and that many entries. Memory is taken for entries that were read, and not for the count.
#[tactic(auto, unfolding(crate::specs::Codec::list_at))]
pub fn list_of<T: Field + Drop>(
    alloc: Global,
    format: u8,
    bytes: &[u8],
) -> Result<(Seq<T>, &[u8]), ReadError>
    ensures { Gives (λ x. (x.0, x.1.now)) result (list_at (T.reads format) bytes.now) }
{
    let (count, rest) = u64_at(bytes)?;
    let (items, rest) = times_of::<T>(alloc, format, count, rest)?;
    Ok((Seq::of(items), rest))
}

/// Writes a count and the entries.
pub fn put_list<T: Field>(out: &mut Vec<u8>, items: &Seq<T>) -> Result<(), AllocError>
    ensures bytes { OnOk result (out.new.items ≡ out.old.items ++ with_count T.spells items.now) }
    ensures fits { OnOk result (ListFits T.Fits items.now) }
{
    put_items(out, items.as_slice())
}

/// Writes a count and the entries.
pub fn put_items<T: Field>(out: &mut Vec<u8>, items: &[T]) -> Result<(), AllocError>
    ensures bytes { OnOk result (out.new.items ≡ out.old.items ++ with_count T.spells items.now) }
    ensures fits { OnOk result (ListFits T.Fits items.now) }
{
    put_u64(out, items.len() as u64)?;
    for item in items {
        item.write(out)?;
    }
    Ok(())
}
