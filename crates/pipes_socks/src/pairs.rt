ghost use Rattle.std.specs.Prelude.{◌≡◌, ◌≢◌, ◌↔◌, ◌⊎◌, ◌≤◌, ◌<◌, ◌-◌, ◌+◌, [], ◌++◌, length, take, drop, None, Err, IsSome, IfOk, OnOk, OnErr, IsOk};
ghost use Rattle.std.specs.Option.{option_map};
ghost use Rattle.tables.specs.Rising.{Rise, IsPlaceOf};
ghost use Rattle.pipes_socks.specs.declared.answers.Got.TheVariants.{Waits, End};
ghost use Rattle.pipes_socks.specs.declared.answers.Sending.TheVariants.{Sent};
ghost use Rattle.pipes_socks.specs.declared.answers.TableRefused.TheVariants.{Full};
ghost use Rattle.pipes_socks.specs.Carried.{carried_by};
ghost use Rattle.pipes_socks.specs.Pairs.{ArePairs, messages_to, send_answer, IsOrNoMemory, sent_messages, recv_answer, got_count, first_bytes, pair_of, waiting_at, with_waiting, with_pair, without_pair, first_length, first_carried};

use crate::answers::{Got, Sending, TableRefused};
use crate::open_list::OpenList;
use crate::queues::Queues;
use crate::streams::Pair;
use lists::{NoMemory, Seq};
use std::alloc::Global;
use std::marker::Model;
use tables::{find_in, insert_in, remove_in};

/// The socket pairs of a group, by their numbers: at most 256, and at each end at most 16 messages.
#[derive(Drop)]
pub struct PairTable {
    pairs: Vec<Queues>,
}

impl Model for PairTable {
    ghost use Rattle.std.specs.Prelude.{◌-◌};
    ghost use Rattle.std.specs.Vec.{vec_len, vec_capacity};
    ghost use Rattle.tables.specs.Rows.{Rows};
    ghost use Rattle.pipes_socks.specs.Pairs.{ArePairs};
    ghost use Rattle.pipes_socks.specs.declared.streams.Pair.{Pair};

    ghost Value = { Rows Pair };

    ghost view = { λ t. record {
      entries = t.pairs.items;
      spare = vec_capacity t.pairs - vec_len t.pairs;
    } };

    ghost invariant = { λ t. ArePairs t.pairs.items };
}

// The place of a pair that is there.
fn place_of(pairs: &[Queues], number: u64) -> usize
    requires rise { Rise (λ p. p.number) pairs.now }
    requires there { IsSome (pair_of pairs.now number) }
    ensures { IsPlaceOf (λ p. p.number) pairs.now number result }
{
    match find_in(pairs, number) {
        Some(place) => place,
        None => unreachable!(),
    }
}

impl PairTable {
    /// The empty table. It takes no memory until a pair is made.
    pub fn new(alloc: Global) -> PairTable
        ensures { result.entries ≡ [] }
    {
        PairTable {
            pairs: Vec::new(alloc),
        }
    }

    /// The table of these pairs with their messages.
    pub fn of(alloc: Global, list: &[Pair]) -> Result<PairTable, NoMemory>
        requires { ArePairs list.now }
        ensures { IfOk result (λ pairs. pairs.entries ≡ list.now) }
    {
        let mut pairs = Vec::with_capacity(alloc, list.len())?;
        for pair in list {
            pairs.push(Queues::of(alloc, pair)?)?;
        }
        Ok(PairTable { pairs })
    }

    /// A copy of the pairs with their messages, in their order.
    pub fn list(&self, alloc: Global) -> Result<Seq<Pair>, NoMemory>
        ensures entries { IfOk result (λ list. list ≡ self.now.entries) }
        ensures valid { ArePairs self.now.entries }
    {
        let mut list = Seq::new(alloc);
        for pair in &self.pairs {
            list.push(pair.copy(alloc)?)?;
        }
        Ok(list)
    }

    pub fn len(&self) -> u64
        ensures count { result ≡ length self.now.entries }
        ensures valid { ArePairs self.now.entries }
    {
        self.pairs.len() as u64
    }

    /// Makes room for n more pairs.
    pub fn reserve(&mut self, n: u64) -> Result<(), NoMemory>
        ensures entries { self.new.entries ≡ self.old.entries }
        ensures room { OnOk result (n ≤ self.new.spare) }
        ensures enough { n ≤ self.old.spare → IsOk result }
        ensures kept { self.old.spare ≤ self.new.spare }
        ensures err { OnErr result (self.new ≡ self.old) }
    {
        self.pairs.reserve(n as usize)?;
        Ok(())
    }

    /// Makes a pair without messages, of a number that isn't there.
    pub fn make(&mut self, alloc: Global, number: u64) -> Result<(), TableRefused>
        requires { pair_of self.old.entries number ≡ None }
        ensures full { (result ≡ Err Full) ↔ (length self.old.entries ≡ 256) }
        ensures ok { OnOk result (self.new.entries ≡ with_pair self.old.entries number) }
        ensures err { OnErr result (self.new ≡ self.old) }
        ensures room { 1 ≤ self.old.spare → length self.old.entries < 256 → IsOk result }
        ensures spare { self.old.spare ≤ self.new.spare + 1 }
    {
        if self.pairs.len() >= 256 {
            return Err(TableRefused::Full);
        }
        insert_in(&mut self.pairs, Queues::new(alloc, number))?;
        Ok(())
    }

    /// The length in bytes of the first message that waits at an end; none where none waits.
    pub fn ready(&self, number: u64, end: u8) -> Option<u64>
        requires { end < 2 }
        ensures { result ≡ first_length self.now.entries number end }
    {
        let place = find_in(&self.pairs, number)?;
        match self.pairs[place].messages(end).first() {
            Some(message) => Some(message.bytes.len() as u64),
            None => None,
        }
    }

    /// How many descriptions the first message that waits at an end carries; none where none waits.
    pub fn carried(&self, number: u64, end: u8) -> Option<u64>
        requires { end < 2 }
        ensures { result ≡ first_carried self.now.entries number end }
    {
        let place = find_in(&self.pairs, number)?;
        match self.pairs[place].messages(end).first() {
            Some(message) => Some(message.opens.len() as u64),
            None => None,
        }
    }

    /// How many messages wait at an end.
    pub fn waiting(&self, number: u64, end: u8) -> Option<u64>
        requires { end < 2 }
        ensures { result
            ≡ option_map (λ p. length (messages_to p end)) (pair_of self.now.entries number) }
    {
        match find_in(&self.pairs, number) {
            Some(place) => Some(self.pairs[place].messages(end).len() as u64),
            None => None,
        }
    }

    /// Sends a message of at least one byte from one end to the other, which is there or not. It
    /// carries the descriptions of these numbers.
    pub fn send(
        &mut self,
        alloc: Global,
        number: u64,
        from: u8,
        bytes: &[u8],
        opens: &[u64],
        peer: bool,
    ) -> Sending
        requires there { IsSome (pair_of self.old.entries number) }
        requires end { from < 2 }
        requires some { 1 ≤ length bytes.now }
        requires few { length opens.now ≤ 8 }
        ensures answer { let waiting = waiting_at self.old.entries number (1 - from) in
            IsOrNoMemory (send_answer waiting bytes.now peer) result }
        ensures pairs { let waiting = waiting_at self.old.entries number (1 - from) in
            self.new.entries ≡ with_waiting self.old.entries number (1 - from)
            (sent_messages result waiting (record { bytes = bytes.now; opens = opens.now })) }
        ensures same { result ≢ Sent → self.new.entries ≡ self.old.entries }
        ensures spare { self.new.spare ≡ self.old.spare }
    {
        let place = place_of(&self.pairs, number);
        self.pairs[place].send(alloc, 1 - from, bytes, opens, peer)
    }

    /// Receives the first message that waits at an end; what the buffer doesn't hold of it is lost.
    /// No memory is taken.
    pub fn recv(&mut self, number: u64, end: u8, into: &mut [u8], peer: bool) -> Got
        requires there { IsSome (pair_of self.old.entries number) }
        requires end { end < 2 }
        ensures answer { let waiting = waiting_at self.old.entries number end in
            result ≡ recv_answer waiting (length into.old) peer }
        ensures pairs { let waiting = waiting_at self.old.entries number end in
            self.new.entries ≡ with_waiting self.old.entries number end (drop 1 waiting) }
        ensures same { (result ≡ Waits) ⊎ (result ≡ End)
            → self.new.entries ≡ self.old.entries }
        ensures given { let waiting = waiting_at self.old.entries number end in
            into.new ≡ take (got_count result) (first_bytes waiting)
            ++ drop (got_count result) into.old }
        ensures spare { self.new.spare ≡ self.old.spare }
    {
        let place = place_of(&self.pairs, number);
        self.pairs[place].recv(end, into, peer)
    }

    /// Drops the messages that wait at an end, and gives what they carried, in their order. No
    /// memory is taken.
    pub fn empty(&mut self, number: u64, end: u8) -> OpenList
        requires there { IsSome (pair_of self.old.entries number) }
        requires end { end < 2 }
        ensures carried { result ≡ carried_by (waiting_at self.old.entries number end) }
        ensures pairs { self.new.entries ≡ with_waiting self.old.entries number end [] }
        ensures spare { self.new.spare ≡ self.old.spare }
    {
        let place = place_of(&self.pairs, number);
        self.pairs[place].empty(end)
    }

    /// Takes a pair out of the table, with the messages that still wait in it. What these carry is
    /// told nobody, so both ends are emptied before.
    pub fn drop_pair(&mut self, number: u64)
        requires { IsSome (pair_of self.old.entries number) }
        ensures pairs { self.new.entries ≡ without_pair self.old.entries number }
        ensures spare { self.old.spare ≤ self.new.spare }
    {
        remove_in(&mut self.pairs, number);
    }
}
