ghost use Rattle.std.specs.Prelude.{◌≡◌, ◌++◌, [], ◌∷◌, MatchOption};
ghost use Rattle.pipes_socks.specs.Carried.{carried_by};

use crate::streams::Message;
use lists::Seq;
use std::alloc::Global;
use std::marker::Model;

/// The numbers of the descriptions that received or dropped messages carried, in their order. They
/// stay in the messages' own memory.
#[derive(Debug, Drop)]
pub struct OpenList {
    // What is left of the first message's numbers, and the messages behind it.
    numbers: Vec<u64>,
    rest: Vec<Message>,
}

impl Model for OpenList {
    ghost use Rattle.std.specs.Prelude.{ℕ, List, ◌++◌};
    ghost use Rattle.pipes_socks.specs.Carried.{carried_by};

    ghost Value = { List ℕ };

    ghost view = { λ l. l.numbers.items ++ carried_by l.rest.items };
}

fn numbers_of(message: Message) -> Vec<u64>
    ensures { result.items ≡ message.opens }
{
    let Message {
        bytes: _bytes,
        opens,
    } = message;
    opens.into_vec()
}

// Moves on to a message that carries something, where no number is left.
fn move_on(numbers: &mut Vec<u64>, rest: &mut Vec<Message>)
    ensures same { numbers.new.items ++ carried_by rest.new.items
        ≡ numbers.old.items ++ carried_by rest.old.items }
    ensures last { numbers.new.items ≡ [] → rest.new.items ≡ [] }
{
    while numbers.is_empty() && !rest.is_empty() {
        *numbers = numbers_of(rest.remove(0));
    }
}

impl OpenList {
    /// What one message carried. No memory is taken.
    pub(crate) fn of_message(alloc: Global, opens: Seq<u64>) -> OpenList
        ensures { result ≡ opens }
    {
        OpenList {
            numbers: opens.into_vec(),
            rest: Vec::new(alloc),
        }
    }

    /// What these messages carried. No memory is taken.
    pub(crate) fn of_messages(alloc: Global, messages: Vec<Message>) -> OpenList
        ensures { result ≡ carried_by messages.items }
    {
        OpenList {
            numbers: Vec::new(alloc),
            rest: messages,
        }
    }

    /// Takes the first number out of the list; none where the list is empty.
    pub fn next(&mut self) -> Option<u64>
        ensures { MatchOption result ((self.old ≡ []) × (self.new ≡ []))
            (λ number. self.old ≡ number ∷ self.new) }
    {
        move_on(&mut self.numbers, &mut self.rest);
        if self.numbers.is_empty() {
            return None;
        }
        Some(self.numbers.remove(0))
    }
}
