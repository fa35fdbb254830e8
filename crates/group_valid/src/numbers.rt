ghost use Rattle.std.specs.Prelude.{◌≡◌, ◌↔◌, ◌<◌, ◌^◌, IsTrue, All, length};
ghost use Rattle.group_defs.specs.Numbers.{RegsFit, NextFits, MessagesAreBytes};
ghost use Rattle.lists.specs.Bytes.{AreBytes};

use group_defs::{Next, Proc};
use pipes_socks::Pair;

// The numbers of a frame fit their types because they have these types. These functions
// always answer true: they read each number, and what is read is known to fit.

#[tactic(auto, unfolding(lists::specs::Bytes::AreBytes))]
pub fn are_bytes(_bytes: &[u8]) -> bool
    ensures { IsTrue result ↔ AreBytes _bytes.now }
{
    true
}

fn fit(_numbers: &[u64]) -> bool
    ensures { IsTrue result ↔ All (λ n. n < 2 ^ 64) _numbers.now }
{
    true
}

#[tactic(auto, unfolding(group_defs::specs::Numbers::RegsFit))]
pub fn regs_fit(p: &Proc) -> bool
    ensures { IsTrue result ↔ RegsFit p.now }
{
    p.pc <= u64::MAX && p.regs.len() == 31 && fit(&p.regs)
}

#[tactic(auto, unfolding(group_defs::specs::Numbers::NextFits))]
pub fn next_fits(n: &Next) -> bool
    ensures { IsTrue result ↔ NextFits n.now }
{
    n.object <= u64::MAX && n.descr <= u64::MAX && n.pipe <= u64::MAX && n.pair <= u64::MAX
}

#[tactic(auto, unfolding(group_defs::specs::Numbers::MessagesAreBytes))]
pub fn messages_are_bytes(p: &Pair) -> bool
    ensures { IsTrue result ↔ MessagesAreBytes p.now }
{
    p.to0
        .as_slice()
        .iter()
        .all(|m| are_bytes(m.bytes.as_slice()))
        && p.to1
            .as_slice()
            .iter()
            .all(|m| are_bytes(m.bytes.as_slice()))
}
