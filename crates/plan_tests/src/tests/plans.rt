ghost use Rattle.std.specs.Prelude.{◌≡◌, IfOk, length};
ghost use Rattle.std.specs.List.{AllByRecursion};

use ckpt_records::{Page, is_in_form};
use group_defs::{Frame, Next, Out};
use lists::Seq;
use page_flusher::{PlanRefused, plan_commit};
use std::alloc::Global;
use std::test::Fail;

fn no_frame(alloc: Global) -> Frame {
    Frame {
        procs: Seq::new(alloc),
        objects: Seq::new(alloc),
        opens: Seq::new(alloc),
        pipes: Seq::new(alloc),
        pairs: Seq::new(alloc),
        files: Seq::new(alloc),
        next: Next {
            pid: 2,
            object: 2,
            descr: 2,
            pipe: 0,
            pair: 0,
        },
        out: Out {
            from: 0,
            mark: 0,
            bytes: Seq::new(alloc),
        },
    }
}

fn one_page(alloc: Global) -> Result<Vec<Page>, Fail>
    ensures { IfOk result (λ pages. AllByRecursion (λ p. length p.bytes ≡ 4096) pages.items) }
{
    let mut bytes = Vec::new(alloc);
    bytes.resize(4096, 7)?;
    let mut pages = Vec::new(alloc);
    pages.push(Page {
        object: 1,
        page: 3,
        bytes: Seq::of(bytes),
    })?;
    Ok(pages)
}

#[test]
fn a_page_and_a_record_take_the_least_free_blocks(rt: HostRuntime) -> Result<(), Fail> {
    let alloc = rt.alloc();
    let frame = no_frame(alloc);
    if !is_in_form(&frame) {
        assert_eq!(rt; 0, 1);
        return Ok(());
    }
    match plan_commit(alloc, 16, &[2, 4], 5, &frame, one_page(alloc)?) {
        Ok(plan) => {
            let blocks = plan.blocks.as_slice();
            assert_eq!(rt; blocks.len(), 2);
            assert_eq!(rt; plan.body.first, 5);
            assert_eq!(rt; plan.body.epoch, 5);
        }
        Err(_) => assert_eq!(rt; 0, 1),
    }
    let all = [2, 3, 4, 5, 6, 7, 8, 9, 10, 11, 12, 13, 14];
    match plan_commit(alloc, 16, &all, 5, &frame, one_page(alloc)?) {
        Ok(_) => assert_eq!(rt; 0, 1),
        Err(refused) => assert_eq!(rt; refused, PlanRefused::Full { need: 2, free: 1 }),
    }
    Ok(())
}

/// Pages of an object that follow each other, from the first on.
fn pages_in_a_row(alloc: Global, count: u64) -> Result<Vec<Page>, Fail>
    ensures { IfOk result (λ pages. AllByRecursion (λ p. length p.bytes ≡ 4096) pages.items) }
{
    let mut pages = Vec::new(alloc);
    for page in 0..count {
        let mut bytes = Vec::new(alloc);
        bytes.resize(4096, 7)?;
        pages.push(Page {
            object: 1,
            page,
            bytes: Seq::of(bytes),
        })?;
    }
    if !pages.iter().all(|p| p.bytes.len() == 4_096) {
        return Err(Fail::new("a page isn't whole"));
    }
    Ok(pages)
}

/// 125 pages that one run lists take a meta block, and two where each is a run of its own.
#[test]
fn a_plan_is_refused_though_its_runs_would_fit(rt: HostRuntime) -> Result<(), Fail> {
    let alloc = rt.alloc();
    let frame = no_frame(alloc);
    if !is_in_form(&frame) {
        return Err(Fail::new("the frame has no spelling"));
    }
    match plan_commit(alloc, 129, &[], 1, &frame, pages_in_a_row(alloc, 125)?) {
        Ok(plan) => assert_eq!(rt; plan.blocks.len(), 126),
        Err(_) => return Err(Fail::new("there is no plan")),
    }
    match plan_commit(alloc, 128, &[], 1, &frame, pages_in_a_row(alloc, 125)?) {
        Ok(_) => return Err(Fail::new("there is a plan")),
        Err(refused) => assert_eq!(rt;
            refused,
            PlanRefused::Full {
                need: 127,
                free: 126
            }
        ),
    }
    Ok(())
}
