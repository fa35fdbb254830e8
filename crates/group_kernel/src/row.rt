use address_maps::Mapping;
use descriptors::DescTable;
use group_defs::ProcState;
use lists::Seq;
use proc_lease::Process;
use tables::Keyed;

/// A process of the group.
#[derive(Drop)]
pub struct Row {
    pub pid: u32,
    pub parent: u32,
    pub state: ProcState,
    pub brk_base: u64,
    pub brk: u64,
    /// Its shared mappings, also while it is on lease: other processes' calls ask who maps a shared object.
    pub shared: Seq<Mapping>,
    pub fds: DescTable,
    /// Its private part. None where it is on lease, or has ended.
    pub process: Option<Process>,
}

/// A process stands by its pid.
impl Keyed for Row {
    ghost key = { λ row. row.pid };

    fn key(&self) -> u64 {
        u64::from(self.pid)
    }
}
