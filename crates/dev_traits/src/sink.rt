ghost use Rattle.std.specs.Prelude.{◌≡◌, ◌<◌, ◌≤◌, length, take, OnOk, OnErr, IfOk, IsErr};
ghost use Rattle.std.specs.Option.{ForSome};
ghost use Rattle.dev_traits.specs.Counts.{HasCause};
ghost use Rattle.dev_traits.specs.Outside.{SinkView, Takes, TakesPart, TakesNothing};

use crate::disk::Failed;

/// Where output goes: bytes can only be added.
pub trait Sink {
    ghost view: { Self → SinkView };

    /// How many bytes it holds.
    fn taken(&self) -> u64
        ensures { result ≡ (view self.now).count };

    /// Adds bytes at the end. Ok(n): the first n of them were taken. Failed: none were.
    fn put(&mut self, bytes: &[u8]) -> Result<usize, Failed>
        requires { 0 < length bytes.now }
        ensures some { IfOk result (λ n. (0 < n) × (n ≤ length bytes.now)) }
        ensures ok { IfOk result (λ n. Takes (take n bytes.now) (view self.old) (view self.new)) }
        ensures err { OnErr result (TakesNothing (view self.old) (view self.new)) }
        ensures faults { HasCause (view self.old).faults (view self.new).faults (IsErr result) };

    /// The count is that of the bytes.
    ghost counted: { (s : Self) → ForSome (view s).bytes (λ bytes. length bytes ≡ (view s).count) };
}

/// Adds all the bytes at the end, in as many puts as the sink wants. After a failure it has taken the first of them,
/// not all.
pub fn put_all<S: Sink>(sink: &mut S, bytes: &[u8]) -> Result<(), Failed>
    ensures ok { OnOk result (Takes bytes.now (S.view sink.old) (S.view sink.new)) }
    ensures err { OnErr result (TakesPart bytes.now (S.view sink.old) (S.view sink.new)) }
    ensures faults { HasCause (S.view sink.old).faults (S.view sink.new).faults (IsErr result) }
{
    let mut done = 0;
    while done < bytes.len() {
        match sink.put(&bytes[done..]) {
            Ok(n) => done += n,
            Err(failed) => return Err(failed),
        }
    }
    Ok(())
}
