//! The test of a record's runs, before any page of them is kept.
ghost use Rattle.std.specs.Prelude.{◌≡◌, ◌↔◌, ◌+◌, ◌≤◌, ℕ, IsTrue, AllPairs, nat_le};
ghost use Rattle.ckpt_records.specs.Listed as tests;
ghost use Rattle.tables.specs.Rising.{Rise};

use crate::meta::PageRun;
use crate::runs::{continues, first_page};
use group_defs::ObjectRec;

// Whether a first number and this many more end at a limit or before.
fn ends_by(first: u64, count: u64, limit: u64) -> bool
    ensures { result ≡ nat_le (first + count) limit }
{
    first <= limit && count <= limit - first
}

// Whether each run lies behind the one before it.
fn runs_rise(runs: &[PageRun]) -> bool
    ensures { IsTrue result ↔ AllPairs tests.IsRunBefore runs.now }
{
    runs.is_sorted_by(|r, q| {
        r.object < q.object || r.object == q.object && ends_by(r.first, r.count, q.first)
    })
}

// Whether no run continues the one before it.
fn are_apart(runs: &[PageRun]) -> bool
    ensures { IsTrue result ↔ tests.AreApart runs.now }
{
    runs.is_sorted_by(|r, q| !continues(r, &first_page(q)))
}

// The objects from this number on.
fn objects_from(number: u64, objects: &[ObjectRec]) -> &[ObjectRec]
    ensures { result.now ≡ tests.objects_from number objects.now }
{
    for (i, object) in objects.iter().enumerate() {
        if object.number >= number {
            let (_, left) = objects.split_at(i);
            return left;
        }
    }
    let (_, none) = objects.split_at(objects.len());
    none
}

// Whether a run's pages are those of the first of these objects, in blocks of the disk.
#[tactic(auto, unfolding(crate::specs::Listed::is_first_placed))]
fn is_first_placed(blocks: u64, run: &PageRun, objects: &[ObjectRec]) -> bool
    ensures { result ≡ tests.is_first_placed blocks run.now objects.now }
{
    match objects {
        [] => false,
        [object, ..] => {
            run.count >= 1
                && run.block >= 2
                && ends_by(run.block, run.count, blocks)
                && object.number == run.object
                && ends_by(run.first, run.count, object.pages)
        }
    }
}

// Whether each run has its place: one walk over objects and runs, both of which rise.
fn are_placed(blocks: u64, runs: &[PageRun], objects: &[ObjectRec]) -> bool
    ensures { result ≡ tests.are_placed blocks runs.now objects.now }
{
    let mut left = objects;
    for run in runs {
        left = objects_from(run.object, left);
        if !is_first_placed(blocks, run, left) {
            return false;
        }
    }
    true
}

/// Whether runs may be listed: they and their places rise, and in format 2 none continues the one before it.
pub fn runs_valid(format: u8, blocks: u64, objects: &[ObjectRec], runs: &[PageRun]) -> bool
    requires { Rise (λ o. o.number) objects.now }
    ensures { IsTrue result ↔ tests.RunsValid format blocks objects.now runs.now }
{
    if !runs_rise(runs) {
        return false;
    }
    if !are_placed(blocks, runs, objects) {
        return false;
    }
    format != 2 || are_apart(runs)
}
