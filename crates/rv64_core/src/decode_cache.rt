//! Words that were decoded before.

ghost use Rattle.std.specs.Prelude.{◌≡◌, ◌<◌, length, Some, IfSome};
ghost use Rattle.std.specs.Coded.{Coded-set, coded_option};
ghost use Rattle.rv64_isa.specs.Reading.{instr_at};
ghost use Rattle.rv64_isa.specs.Table.{Fits};
ghost use Rattle.rv64_core.specs.Fitting.{Fits-prop};

use lists::NoMemory;
use rv64_isa::{Instr, decode};
use std::alloc::Global;

/// A word with its instruction.
#[derive(Clone, Copy)]
struct Entry {
    word: u32,
    instr: Instr,
    ghost is: { instr_at word ≡ Some instr } by { Coded-set (coded_option instr-code) (instr_at word) (Some instr) },
    ghost fits: { Fits instr } by { Fits-prop instr },
}

/// The instructions of words that were decoded before, at most one for all pcs that agree modulo 4,096. An entry says
/// nothing of memory: it is right whatever is stored, mapped or shared since.
#[derive(Drop)]
pub struct DecodeCache {
    entries: Vec<Entry>,
    ghost size: { length entries.items ≡ 1024 },
}

impl DecodeCache {
    /// A cache whose every entry is the word 0x13, which does nothing.
    pub fn new(alloc: Global) -> Result<DecodeCache, NoMemory> {
        let nop = Entry {
            word: 0x13,
            instr: Instr::Addi {
                rd: 0,
                rs1: 0,
                imm: 0,
            },
        };
        let entries = vec![in alloc; nop; 1024]?;
        Ok(DecodeCache { entries })
    }

    /// What `decode` gives for the word that was fetched at pc. Of pc nothing but the choice of the entry depends.
    #[inline(always)]
    pub fn instruction(&mut self, pc: u64, word: u32) -> Option<Instr>
        ensures exact { result ≡ instr_at word }
        ensures fits { IfSome result (λ i. Fits i) }
    {
        let k = (pc / 4 % 1024) as usize;
        if self.entries[k].word == word {
            return Some(self.entries[k].instr);
        }
        self.refill(k, word)
    }

    // Decodes a word, and keeps it with its instruction.
    #[inline(never)]
    fn refill(&mut self, k: usize, word: u32) -> Option<Instr>
        requires { k < 1024 }
        ensures exact { result ≡ instr_at word }
        ensures fits { IfSome result (λ i. Fits i) }
    {
        match decode(word) {
            Some(instr) => {
                self.entries[k] = Entry { word, instr };
                Some(instr)
            }
            None => None,
        }
    }
}
