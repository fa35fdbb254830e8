ghost use Rattle.std.specs.Prelude.{◌≡◌, ◌<◌, ◌++◌, ◌^◌, [], OnOk};
ghost use Rattle.std.specs.List.{flat_map};
ghost use Rattle.ckpt_records.specs.Gives.{Gives};
ghost use Rattle.ckpt_records.specs.Codec as codec;
ghost use Rattle.ckpt_records.specs.Fits as fits;
ghost use Rattle.ckpt_records.specs.Reading as reading;
ghost use Rattle.ckpt_records.specs.Spelling as spelling;

use crate::counted::{list_of, put_list};
use crate::error::ReadError;
use crate::field::Field;
use crate::meta::PageRun;
use crate::numbers::{
    bool_at, put_bool, put_regs, put_text, put_u8, put_u32, put_u64, regs_of, text_of, u8_at,
    u32_at, u64_at,
};
use group_defs::{
    FileRec, Mapping, Message, Next, ObjectRec, Open, OpenKind, Out, Pair, Pipe, Proc, ProcState,
};
use lists::Seq;
use std::alloc::{AllocError, Global};

impl Field for Mapping {
    ghost spells = { spelling.mapping };

    ghost Fits = { fits.MappingInRange };

    ghost reads = { λ _. reading.mapping_from };

    #[tactic(auto, unfolding(crate::specs::Reading::mapping_from))]
    fn read(_alloc: Global, _format: u8, bytes: &[u8]) -> Result<(Mapping, &[u8]), ReadError> {
        let (start, rest) = u64_at(bytes)?;
        let (pages, rest) = u64_at(rest)?;
        let (prot, rest) = u8_at(rest)?;
        let (shared, rest) = bool_at(rest)?;
        let (object, rest) = u64_at(rest)?;
        let (first, rest) = u64_at(rest)?;
        let mapping = Mapping {
            start,
            pages,
            prot,
            shared,
            object,
            first,
        };
        Ok((mapping, rest))
    }

    fn write(&self, out: &mut Vec<u8>) -> Result<(), AllocError> {
        put_u64(out, self.start)?;
        put_u64(out, self.pages)?;
        put_u8(out, self.prot)?;
        put_bool(out, self.shared)?;
        put_u64(out, self.object)?;
        put_u64(out, self.first)
    }
}

impl Field for Next {
    ghost spells = { spelling.next };

    ghost Fits = { fits.NextInRange };

    ghost reads = { λ _. reading.next_at };

    #[tactic(auto, unfolding(crate::specs::Reading::next_at))]
    fn read(_alloc: Global, _format: u8, bytes: &[u8]) -> Result<(Next, &[u8]), ReadError> {
        let (pid, rest) = u32_at(bytes)?;
        let (object, rest) = u64_at(rest)?;
        let (descr, rest) = u64_at(rest)?;
        let (pipe, rest) = u64_at(rest)?;
        let (pair, rest) = u64_at(rest)?;
        let next = Next {
            pid,
            object,
            descr,
            pipe,
            pair,
        };
        Ok((next, rest))
    }

    fn write(&self, out: &mut Vec<u8>) -> Result<(), AllocError> {
        put_u32(out, self.pid)?;
        put_u64(out, self.object)?;
        put_u64(out, self.descr)?;
        put_u64(out, self.pipe)?;
        put_u64(out, self.pair)
    }
}

impl Field for Out {
    ghost spells = { spelling.out };

    ghost Fits = { fits.OutRange };

    ghost reads = { λ _. reading.out_at };

    #[tactic(auto, unfolding(crate::specs::Reading::out_at))]
    fn read(alloc: Global, _format: u8, bytes: &[u8]) -> Result<(Out, &[u8]), ReadError> {
        let (from, rest) = u64_at(bytes)?;
        let (bytes, rest) = text_of(alloc, rest)?;
        let held = bytes.as_slice().len() as u64;
        if held > u64::MAX - from {
            return Err(ReadError::Nothing);
        }
        let out = Out {
            from,
            mark: from + held,
            bytes,
        };
        Ok((out, rest))
    }

    fn write(&self, out: &mut Vec<u8>) -> Result<(), AllocError> {
        let _mark = self.mark;
        put_u64(out, self.from)?;
        put_text(out, self.bytes.as_slice())
    }
}

impl Field for ObjectRec {
    ghost spells = { spelling.object_rec };

    ghost Fits = { fits.ObjectInRange };

    ghost reads = { λ _. reading.object_at };

    #[tactic(auto, unfolding(crate::specs::Reading::object_at))]
    fn read(_alloc: Global, _format: u8, bytes: &[u8]) -> Result<(ObjectRec, &[u8]), ReadError> {
        let (number, rest) = u64_at(bytes)?;
        let (pages, rest) = u64_at(rest)?;
        Ok((ObjectRec { number, pages }, rest))
    }

    fn write(&self, out: &mut Vec<u8>) -> Result<(), AllocError> {
        put_u64(out, self.number)?;
        put_u64(out, self.pages)
    }
}

impl Field for FileRec {
    ghost spells = { spelling.file_rec };

    ghost Fits = { fits.FileInRange };

    ghost reads = { λ _. reading.file_at };

    #[tactic(auto, unfolding(crate::specs::Reading::file_at))]
    fn read(alloc: Global, _format: u8, bytes: &[u8]) -> Result<(FileRec, &[u8]), ReadError> {
        let (name, rest) = text_of(alloc, bytes)?;
        let (object, rest) = u64_at(rest)?;
        let (length, rest) = u64_at(rest)?;
        let file = FileRec {
            name,
            object,
            length,
        };
        Ok((file, rest))
    }

    fn write(&self, out: &mut Vec<u8>) -> Result<(), AllocError> {
        put_text(out, self.name.as_slice())?;
        put_u64(out, self.object)?;
        put_u64(out, self.length)
    }
}

impl Field for Pipe {
    ghost spells = { spelling.pipe };

    ghost Fits = { fits.PipeInRange };

    ghost reads = { λ _. reading.pipe_at };

    #[tactic(auto, unfolding(crate::specs::Reading::pipe_at))]
    fn read(alloc: Global, _format: u8, bytes: &[u8]) -> Result<(Pipe, &[u8]), ReadError> {
        let (number, rest) = u64_at(bytes)?;
        let (bytes, rest) = text_of(alloc, rest)?;
        Ok((Pipe { number, bytes }, rest))
    }

    fn write(&self, out: &mut Vec<u8>) -> Result<(), AllocError> {
        put_u64(out, self.number)?;
        put_text(out, self.bytes.as_slice())
    }
}

impl Field for u64 {
    ghost spells = { codec.number };

    ghost Fits = { fits.Is64 };

    ghost reads = { λ _. codec.number_from };

    fn read(_alloc: Global, _format: u8, bytes: &[u8]) -> Result<(u64, &[u8]), ReadError> {
        u64_at(bytes)
    }

    fn write(&self, out: &mut Vec<u8>) -> Result<(), AllocError> {
        put_u64(out, *self)
    }
}

// What a message carries. In format 1 it isn't written, and there is nothing.
#[tactic(auto, unfolding(crate::specs::Reading::second_at))]
fn carried_of(alloc: Global, format: u8, bytes: &[u8]) -> Result<(Seq<u64>, &[u8]), ReadError>
    ensures { Gives (λ x. (x.0, x.1.now)) result
        (reading.second_at format [] (codec.list_at codec.number_from) bytes.now) }
{
    if format == 1 {
        return Ok((Seq::new(alloc), bytes));
    }
    list_of::<u64>(alloc, format, bytes)
}

impl Field for Message {
    ghost spells = { spelling.message 2 };

    ghost Fits = { fits.MessageInRange };

    ghost reads = { reading.message_at };

    #[tactic(auto, unfolding(crate::specs::Reading::message_at))]
    fn read(alloc: Global, format: u8, bytes: &[u8]) -> Result<(Message, &[u8]), ReadError> {
        let (bytes, rest) = text_of(alloc, bytes)?;
        let (opens, rest) = carried_of(alloc, format, rest)?;
        Ok((Message { bytes, opens }, rest))
    }

    fn write(&self, out: &mut Vec<u8>) -> Result<(), AllocError> {
        put_text(out, self.bytes.as_slice())?;
        put_list(out, &self.opens)
    }
}

impl Field for Pair {
    ghost spells = { spelling.pair 2 };

    ghost Fits = { fits.PairInRange };

    ghost reads = { reading.pair_at };

    #[tactic(auto, unfolding(crate::specs::Reading::pair_at))]
    fn read(alloc: Global, format: u8, bytes: &[u8]) -> Result<(Pair, &[u8]), ReadError> {
        let (number, rest) = u64_at(bytes)?;
        let (to0, rest) = list_of::<Message>(alloc, format, rest)?;
        let (to1, rest) = list_of::<Message>(alloc, format, rest)?;
        Ok((Pair { number, to0, to1 }, rest))
    }

    fn write(&self, out: &mut Vec<u8>) -> Result<(), AllocError> {
        put_u64(out, self.number)?;
        put_list(out, &self.to0)?;
        put_list(out, &self.to1)
    }
}

impl Field for OpenKind {
    ghost spells = { spelling.kind };

    ghost Fits = { fits.KindRange };

    ghost reads = { λ _. reading.kind_at };

    #[tactic(auto, unfolding(crate::specs::Reading::kind_at))]
    fn read(_alloc: Global, _format: u8, bytes: &[u8]) -> Result<(OpenKind, &[u8]), ReadError> {
        let (kind, rest) = u64_at(bytes)?;
        let (target, rest) = u64_at(rest)?;
        let kind = match (kind, target) {
            (0, 0) => OpenKind::Nothing,
            (1, 0) => OpenKind::Outside,
            (2, object) => OpenKind::File { object },
            (3, pipe) => OpenKind::PipeRead { pipe },
            (4, pipe) => OpenKind::PipeWrite { pipe },
            (5, pair) => OpenKind::PairEnd { pair, end: 0 },
            (6, pair) => OpenKind::PairEnd { pair, end: 1 },
            _ => return Err(ReadError::Nothing),
        };
        Ok((kind, rest))
    }

    fn write(&self, out: &mut Vec<u8>) -> Result<(), AllocError> {
        let (kind, target) = match *self {
            OpenKind::Nothing => (0, 0),
            OpenKind::Outside => (1, 0),
            OpenKind::File { object } => (2, object),
            OpenKind::PipeRead { pipe } => (3, pipe),
            OpenKind::PipeWrite { pipe } => (4, pipe),
            OpenKind::PairEnd { pair, end } => (5 + u64::from(end), pair),
        };
        put_u64(out, kind)?;
        put_u64(out, target)
    }
}

impl Field for Open {
    ghost spells = { spelling.opened };

    ghost Fits = { fits.OpenRange };

    ghost reads = { λ _. reading.open_from };

    #[tactic(auto, unfolding(crate::specs::Reading::open_from))]
    fn read(alloc: Global, format: u8, bytes: &[u8]) -> Result<(Open, &[u8]), ReadError> {
        let (number, rest) = u64_at(bytes)?;
        let (kind, rest) = OpenKind::read(alloc, format, rest)?;
        let (offset, rest) = u64_at(rest)?;
        let (flags, rest) = u32_at(rest)?;
        let open = Open {
            number,
            kind,
            offset,
            flags,
        };
        Ok((open, rest))
    }

    fn write(&self, out: &mut Vec<u8>) -> Result<(), AllocError> {
        put_u64(out, self.number)?;
        self.kind.write(out)?;
        put_u64(out, self.offset)?;
        put_u32(out, self.flags)
    }
}

impl Field for (u32, u64) {
    ghost spells = { spelling.descriptor };

    ghost Fits = { fits.DescriptorInRange };

    ghost reads = { λ _. reading.descriptor_at };

    #[tactic(auto, unfolding(crate::specs::Reading::descriptor_at))]
    fn read(_alloc: Global, _format: u8, bytes: &[u8]) -> Result<((u32, u64), &[u8]), ReadError> {
        let (fd, rest) = u32_at(bytes)?;
        let (open, rest) = u64_at(rest)?;
        Ok(((fd, open), rest))
    }

    fn write(&self, out: &mut Vec<u8>) -> Result<(), AllocError> {
        put_u32(out, self.0)?;
        put_u64(out, self.1)
    }
}

impl Field for ProcState {
    ghost spells = { spelling.state };

    ghost Fits = { fits.StateInRange };

    ghost reads = { λ _. reading.state_at };

    #[tactic(auto, unfolding(crate::specs::Reading::state_at))]
    fn read(_alloc: Global, _format: u8, bytes: &[u8]) -> Result<(ProcState, &[u8]), ReadError> {
        let (state, rest) = u64_at(bytes)?;
        let (status, rest) = u64_at(rest)?;
        match state {
            0 if status == 0 => Ok((ProcState::Running, rest)),
            1 if status < 4_294_967_296 => {
                let status = status as u32;
                Ok((ProcState::Ended { status }, rest))
            }
            _ => Err(ReadError::Nothing),
        }
    }

    fn write(&self, out: &mut Vec<u8>) -> Result<(), AllocError> {
        let (state, status) = match *self {
            ProcState::Running => (0, 0),
            ProcState::Ended { status } => (1, u64::from(status)),
        };
        put_u64(out, state)?;
        put_u64(out, status)
    }
}

impl Field for Proc {
    ghost spells = { spelling.proc };

    ghost Fits = { fits.ProcInRange };

    ghost reads = { λ _. reading.proc_at };

    #[tactic(auto, unfolding(crate::specs::Reading::proc_at))]
    fn read(alloc: Global, format: u8, bytes: &[u8]) -> Result<(Proc, &[u8]), ReadError> {
        let (pid, rest) = u32_at(bytes)?;
        let (parent, rest) = u32_at(rest)?;
        let (state, rest) = ProcState::read(alloc, format, rest)?;
        let (pc, rest) = u64_at(rest)?;
        let (regs, rest) = regs_of(rest)?;
        let (brk_base, rest) = u64_at(rest)?;
        let (brk, rest) = u64_at(rest)?;
        let (maps, rest) = list_of::<Mapping>(alloc, format, rest)?;
        let (fds, rest) = list_of::<(u32, u64)>(alloc, format, rest)?;
        let proc = Proc {
            pid,
            parent,
            state,
            pc,
            regs,
            brk_base,
            brk,
            maps,
            fds,
        };
        Ok((proc, rest))
    }

    fn write(&self, out: &mut Vec<u8>) -> Result<(), AllocError> {
        put_proc_front(out, self)?;
        put_u64(out, self.brk_base)?;
        put_u64(out, self.brk)?;
        put_list(out, &self.maps)?;
        put_list(out, &self.fds)
    }
}

// How many pages a run has. In format 1 it isn't written, and is 1.
#[tactic(auto, unfolding(crate::specs::Reading::second_at))]
fn count_of(format: u8, bytes: &[u8]) -> Result<(u64, &[u8]), ReadError>
    ensures { Gives (λ x. (x.0, x.1.now)) result
        (reading.second_at format 1 codec.number_from bytes.now) }
{
    if format == 1 {
        return Ok((1, bytes));
    }
    u64_at(bytes)
}

impl Field for PageRun {
    ghost spells = { spelling.page_run 2 };

    ghost Fits = { fits.RunInRange };

    ghost reads = { reading.run_at };

    #[tactic(auto, unfolding(crate::specs::Reading::run_at))]
    fn read(_alloc: Global, format: u8, bytes: &[u8]) -> Result<(PageRun, &[u8]), ReadError> {
        let (object, rest) = u64_at(bytes)?;
        let (first, rest) = u64_at(rest)?;
        let (count, rest) = count_of(format, rest)?;
        let (block, rest) = u64_at(rest)?;
        let run = PageRun {
            object,
            first,
            count,
            block,
        };
        Ok((run, rest))
    }

    fn write(&self, out: &mut Vec<u8>) -> Result<(), AllocError> {
        put_u64(out, self.object)?;
        put_u64(out, self.first)?;
        put_u64(out, self.count)?;
        put_u64(out, self.block)
    }
}

// The fields up to the registers.
fn put_proc_front(out: &mut Vec<u8>, p: &Proc) -> Result<(), AllocError>
    ensures bytes { OnOk result (out.new.items
        ≡ out.old.items ++ (codec.number p.now.pid
        ++ (codec.number p.now.parent ++ (spelling.state p.now.state
        ++ (codec.number p.now.pc ++ flat_map codec.number p.now.regs))))) }
    ensures fits { OnOk result ((p.now.pid < 2 ^ 32)
        × ((p.now.parent < 2 ^ 32) × (fits.StateInRange p.now.state
        × (fits.Is64 p.now.pc × fits.RegsInRange p.now.regs)))) }
{
    put_u32(out, p.pid)?;
    put_u32(out, p.parent)?;
    p.state.write(out)?;
    put_u64(out, p.pc)?;
    put_regs(out, &p.regs)
}
