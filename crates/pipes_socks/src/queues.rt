ghost use Rattle.std.specs.Prelude.{◌≡◌, ◌≤◌, ◌<◌, ◌-◌, ◌+◌, [], ◌∷◌, ◌++◌, length, take, drop, IfOk, min, true};
ghost use Rattle.pipes_socks.specs.Carried.{carried_by};
ghost use Rattle.pipes_socks.specs.declared.answers.Sending.TheVariants.{Sent};
ghost use Rattle.pipes_socks.specs.Pairs.{messages_to, with_messages, send_answer, IsOrNoMemory, sent_messages, recv_answer, got_count, first_bytes};

use crate::answers::{Got, Sending};
use crate::open_list::OpenList;
use crate::streams::{Message, Pair};
use lists::{NoMemory, Seq};
use std::alloc::Global;
use std::marker::Model;
use std::mem;

/// A pair whose messages can be taken from the front.
#[derive(Drop)]
pub struct Queues {
    alloc: Global,
    number: u64,
    to0: Vec<Message>,
    to1: Vec<Message>,
}

impl Model for Queues {
    ghost use Rattle.pipes_socks.specs.declared.streams.Pair.{Pair};

    ghost Value = { Pair };

    ghost view = { λ e. record { number = e.number; to0 = e.to0.items; to1 = e.to1.items } };
}

fn copy_bytes(alloc: Global, bytes: &[u8]) -> Result<Seq<u8>, NoMemory>
    ensures { IfOk result (λ copy. copy ≡ bytes.now) }
{
    Ok(Seq::of(Vec::from_slice(alloc, bytes)?))
}

fn copy_numbers(alloc: Global, numbers: &[u64]) -> Result<Seq<u64>, NoMemory>
    ensures { IfOk result (λ copy. copy ≡ numbers.now) }
{
    Ok(Seq::of(Vec::from_slice(alloc, numbers)?))
}

fn message_of(alloc: Global, bytes: &[u8], opens: &[u64]) -> Result<Message, NoMemory>
    ensures { IfOk result (λ m. m ≡ record { bytes = bytes.now; opens = opens.now }) }
{
    let bytes = copy_bytes(alloc, bytes)?;
    let opens = copy_numbers(alloc, opens)?;
    Ok(Message { bytes, opens })
}

fn copy_message(alloc: Global, message: &Message) -> Result<Message, NoMemory>
    ensures { IfOk result (λ copy. copy ≡ message.now) }
{
    message_of(alloc, message.bytes.as_slice(), message.opens.as_slice())
}

fn copy_messages(alloc: Global, messages: &[Message]) -> Result<Seq<Message>, NoMemory>
    ensures { IfOk result (λ copy. copy ≡ messages.now) }
{
    let mut copy = Seq::new(alloc);
    for message in messages {
        copy.push(copy_message(alloc, message)?)?;
    }
    Ok(copy)
}

// Adds a message behind those that wait.
fn post(
    alloc: Global,
    waiting: &mut Vec<Message>,
    bytes: &[u8],
    opens: &[u64],
    peer: bool,
) -> Sending
    ensures answer { IsOrNoMemory (send_answer waiting.old.items bytes.now peer) result }
    ensures messages { waiting.new.items
        ≡ sent_messages result waiting.old.items (record { bytes = bytes.now; opens = opens.now }) }
{
    if bytes.len() > 4096 {
        return Sending::TooLong;
    }
    if !peer {
        return Sending::Broken;
    }
    if waiting.len() >= 16 {
        return Sending::Waits;
    }
    match message_of(alloc, bytes, opens) {
        Ok(message) => add(waiting, message),
        Err(_) => Sending::NoMemory,
    }
}

fn add(waiting: &mut Vec<Message>, message: Message) -> Sending
    ensures answer { IsOrNoMemory Sent result }
    ensures messages { waiting.new.items ≡ sent_messages result waiting.old.items message }
{
    match waiting.push(message) {
        Ok(()) => Sending::Sent,
        Err(_) => Sending::NoMemory,
    }
}

// Gives the first bytes of a message.
fn give(message: &[u8], into: &mut [u8]) -> u64
    ensures count { result ≡ min (length into.old) (length message.now) }
    ensures given { into.new ≡ take result message.now ++ drop result into.old }
{
    let count = into.len().min(message.len());
    into[..count].copy_from_slice(&message[..count]);
    count as u64
}

// Gives what a buffer holds of a message, and what it carried.
fn hand_over(alloc: Global, message: Message, into: &mut [u8]) -> Got
    ensures answer { result ≡ recv_answer (message ∷ []) (length into.old) true }
    ensures given { into.new ≡ take (got_count result) message.bytes
        ++ drop (got_count result) into.old }
{
    let Message { bytes, opens } = message;
    let taken = give(bytes.as_slice(), into);
    Got::Message {
        taken,
        cut: into.len() < bytes.len(),
        opens: OpenList::of_message(alloc, opens),
    }
}

// Takes the first message that waits.
fn fetch(alloc: Global, waiting: &mut Vec<Message>, into: &mut [u8], peer: bool) -> Got
    ensures answer { result ≡ recv_answer waiting.old.items (length into.old) peer }
    ensures messages { waiting.new.items ≡ drop 1 waiting.old.items }
    ensures given { into.new ≡ take (got_count result) (first_bytes waiting.old.items)
        ++ drop (got_count result) into.old }
{
    if waiting.is_empty() {
        return if peer { Got::Waits } else { Got::End };
    }
    hand_over(alloc, waiting.remove(0), into)
}

// Takes all messages that wait, and gives what they carried.
fn clear(alloc: Global, waiting: &mut Vec<Message>) -> OpenList
    ensures carried { result ≡ carried_by waiting.old.items }
    ensures none { waiting.new.items ≡ [] }
{
    OpenList::of_messages(alloc, mem::replace(waiting, Vec::new(alloc)))
}

impl Queues {
    /// A pair without messages. No memory is taken.
    pub fn new(alloc: Global, number: u64) -> Queues
        ensures { result ≡ record { number = number; to0 = []; to1 = [] } }
    {
        Queues {
            alloc,
            number,
            to0: Vec::new(alloc),
            to1: Vec::new(alloc),
        }
    }

    /// A pair with copies of the messages.
    pub fn of(alloc: Global, pair: &Pair) -> Result<Queues, NoMemory>
        ensures { IfOk result (λ e. e ≡ pair.now) }
    {
        let to0 = copy_messages(alloc, pair.to0.as_slice())?;
        let to1 = copy_messages(alloc, pair.to1.as_slice())?;
        Ok(Queues {
            alloc,
            number: pair.number,
            to0: to0.into_vec(),
            to1: to1.into_vec(),
        })
    }

    /// A copy of the pair and its messages.
    pub fn copy(&self, alloc: Global) -> Result<Pair, NoMemory>
        ensures { IfOk result (λ p. p ≡ self.now) }
    {
        let to0 = copy_messages(alloc, &self.to0)?;
        let to1 = copy_messages(alloc, &self.to1)?;
        Ok(Pair {
            number: self.number,
            to0,
            to1,
        })
    }

    pub fn number(&self) -> u64
        ensures { result ≡ self.now.number }
    {
        self.number
    }

    /// The messages that wait at an end, 0 or 1.
    pub fn messages(&self, end: u8) -> &[Message]
        ensures { result.now ≡ messages_to self.now end }
    {
        if end == 0 {
            self.to0.as_slice()
        } else {
            self.to1.as_slice()
        }
    }

    /// Sends a message to an end.
    pub fn send(
        &mut self,
        alloc: Global,
        to: u8,
        bytes: &[u8],
        opens: &[u64],
        peer: bool,
    ) -> Sending
        ensures answer { let waiting = messages_to self.old to in
            IsOrNoMemory (send_answer waiting bytes.now peer) result }
        ensures pair { let waiting = messages_to self.old to in
            self.new ≡ with_messages self.old to
            (sent_messages result waiting (record { bytes = bytes.now; opens = opens.now })) }
    {
        if to == 0 {
            post(alloc, &mut self.to0, bytes, opens, peer)
        } else {
            post(alloc, &mut self.to1, bytes, opens, peer)
        }
    }

    /// Takes the first message that waits at an end.
    pub fn recv(&mut self, end: u8, into: &mut [u8], peer: bool) -> Got
        ensures answer { result ≡ recv_answer (messages_to self.old end) (length into.old) peer }
        ensures pair { self.new ≡ with_messages self.old end (drop 1 (messages_to self.old end)) }
        ensures given { let waiting = messages_to self.old end in
            into.new ≡ take (got_count result) (first_bytes waiting)
            ++ drop (got_count result) into.old }
    {
        if end == 0 {
            fetch(self.alloc, &mut self.to0, into, peer)
        } else {
            fetch(self.alloc, &mut self.to1, into, peer)
        }
    }

    /// Drops the messages that wait at an end, and gives what they carried.
    pub fn empty(&mut self, end: u8) -> OpenList
        ensures carried { result ≡ carried_by (messages_to self.old end) }
        ensures pair { self.new ≡ with_messages self.old end [] }
    {
        if end == 0 {
            clear(self.alloc, &mut self.to0)
        } else {
            clear(self.alloc, &mut self.to1)
        }
    }
}
