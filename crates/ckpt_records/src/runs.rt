//! The runs by which a record lists pages.
ghost use Rattle.std.specs.Prelude.{◌≡◌, ◌++◌, ◌+◌, ◌==◌, IfOk, OnOk};
ghost use Rattle.std.specs.List.{AllByRecursion};
ghost use Rattle.ckpt_records.specs.Listed.{first_page as first_of};
ghost use Rattle.ckpt_records.specs.Runs as spelled;
ghost use Rattle.ckpt_records.specs.Runs.{RunEnds};

use crate::meta::{Listing, Meta, PagePlace, PageRun};
use lists::{NoMemory, Seq};
use std::alloc::{AllocError, Global};

// Whether a number is this much above the first one.
fn stands_at(first: u64, count: u64, number: u64) -> bool
    ensures { result ≡ (number == first + count) }
{
    number >= first && number - first == count
}

/// Whether a page continues a run.
pub fn continues(run: &PageRun, page: &PagePlace) -> bool
    ensures { result ≡ spelled.continues run.now page.now }
{
    page.object == run.object
        && stands_at(run.first, run.count, page.page)
        && stands_at(run.block, run.count, page.block)
}

fn lone_run(page: &PagePlace) -> PageRun
    ensures { result ≡ spelled.lone_run page.now }
{
    PageRun {
        object: page.object,
        first: page.page,
        count: 1,
        block: page.block,
    }
}

/// A run's first page.
pub fn first_page(run: &PageRun) -> PagePlace
    ensures { result ≡ first_of run.now }
{
    PagePlace {
        object: run.object,
        page: run.first,
        block: run.block,
    }
}

/// The longest runs of a list of pages.
pub fn runs_of(alloc: Global, pages: &[PagePlace]) -> Result<Vec<PageRun>, AllocError>
    ensures { IfOk result (λ v. v.items ≡ spelled.runs_of pages.now) }
{
    let mut found = Vec::new(alloc);
    let Some((first, others)) = pages.split_first() else {
        return Ok(found);
    };
    let mut run = lone_run(first);
    for page in others {
        if continues(&run, page) {
            run.count += 1;
        } else {
            found.push(run)?;
            run = lone_run(page);
        }
    }
    found.push(run)?;
    Ok(found)
}

fn put_pages(pages: &mut Vec<PagePlace>, run: &PageRun) -> Result<(), AllocError>
    requires { RunEnds run.now }
    ensures { OnOk result (pages.new.items ≡ pages.old.items ++ spelled.run_pages run.now) }
{
    for i in 0..run.count {
        pages.push(PagePlace {
            object: run.object,
            page: run.first + i,
            block: run.block + i,
        })?;
    }
    Ok(())
}

// The pages of runs, one after another.
fn pages_of_runs(alloc: Global, runs: &[PageRun]) -> Result<Vec<PagePlace>, AllocError>
    requires { AllByRecursion RunEnds runs.now }
    ensures { IfOk result (λ v. v.items ≡ spelled.pages_of_runs runs.now) }
{
    let mut pages = Vec::new(alloc);
    for run in runs {
        put_pages(&mut pages, run)?;
    }
    Ok(pages)
}

impl Listing {
    /// Lists the pages of the runs, each of which takes memory.
    pub fn into_meta(self, alloc: Global) -> Result<Meta, NoMemory>
        requires ends { AllByRecursion RunEnds self.runs }
        ensures frame { IfOk result (λ m. m.frame ≡ self.frame) }
        ensures pages { IfOk result (λ m. m.pages ≡ spelled.pages_of_runs self.runs) }
    {
        let Listing { frame, runs } = self;
        let pages = pages_of_runs(alloc, runs.as_slice())?;
        Ok(Meta {
            frame,
            pages: Seq::of(pages),
        })
    }
}
