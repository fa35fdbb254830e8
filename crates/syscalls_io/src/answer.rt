//! What a call on a descriptor answers.

ghost use Rattle.std.specs.Prelude.{◌≡◌, ◌<◌, ◌^◌, neg_ℤ, pos};
ghost use Rattle.syscalls_io.specs.declared.answer.CallAnswer.TheVariants.{Done};

/// What `io_call` answers.
#[derive(Clone, Copy, Debug, PartialEq, Eq)]
pub enum CallAnswer {
    /// The call is done. The caller writes the value into x10, and adds 4 to pc.
    Done(i64),
    /// The call waits. Nothing has changed.
    Waits,
}

/// A refusal is the errno with its sign turned.
pub fn refuse(errno: u64) -> CallAnswer
    requires { errno < 2 ^ 63 }
    ensures { result ≡ Done (neg_ℤ (pos errno)) }
{
    CallAnswer::Done(-(errno as i64))
}
