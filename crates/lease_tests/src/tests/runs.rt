use crate::tests::samples::own_lease;
use proc_lease::Halt;
use rv64_core::DecodeCache;
use std::test::Fail;

#[test]
fn a_jump_to_itself_runs_to_the_quantum(rt: HostRuntime) -> Result<(), Fail> {
    let mut lease = own_lease(rt.alloc(), &[0x0000_006f], &[0])?;
    let mut cache = DecodeCache::new(rt.alloc())?;
    assert_eq!(rt; lease.run(&mut cache, 10), Halt::Quantum);
    assert_eq!(rt; (lease.pid, lease.done), (1, 10));
    assert_eq!(rt; lease.process.regs.pc, 0x1000);
    assert_eq!(rt; lease.run(&mut cache, 10), Halt::Quantum);
    assert_eq!(rt; lease.done, 10);
    assert_eq!(rt; lease.run(&mut cache, 2_000), Halt::Quantum);
    assert_eq!(rt; lease.done, 2_000);
    Ok(())
}

/// Registers and the system call after them: exit with 0.
const EXIT: [u32; 3] = [
    0x05d0_0893, // addi x17, x0, 93
    0x0000_0513, // addi x10, x0, 0
    0x0000_0073, // ecall
];

#[test]
fn a_system_call_is_not_made(rt: HostRuntime) -> Result<(), Fail> {
    let mut lease = own_lease(rt.alloc(), &EXIT, &[0])?;
    let mut cache = DecodeCache::new(rt.alloc())?;
    assert_eq!(rt; lease.run(&mut cache, 10), Halt::Shared);
    assert_eq!(rt; lease.done, 2);
    assert_eq!(rt; lease.process.regs.pc, 0x1008);
    assert_eq!(rt; lease.process.regs.get(17), 93);
    assert_eq!(rt; lease.run(&mut cache, 10), Halt::Shared);
    assert_eq!(rt; lease.done, 2);
    Ok(())
}

#[test]
fn a_quantum_that_is_reached_is_said_before_what_comes_next(rt: HostRuntime) -> Result<(), Fail> {
    let mut lease = own_lease(rt.alloc(), &EXIT, &[0])?;
    let mut cache = DecodeCache::new(rt.alloc())?;
    assert_eq!(rt; lease.run(&mut cache, 0), Halt::Quantum);
    assert_eq!(rt; (lease.done, lease.process.regs.pc), (0, 0x1000));
    assert_eq!(rt; lease.run(&mut cache, 2), Halt::Quantum);
    assert_eq!(rt; (lease.done, lease.process.regs.pc), (2, 0x1008));
    assert_eq!(rt; lease.run(&mut cache, 3), Halt::Shared);
    assert_eq!(rt; (lease.done, lease.process.regs.pc), (2, 0x1008));
    Ok(())
}

#[test]
fn a_run_goes_on_after_a_call_was_answered(rt: HostRuntime) -> Result<(), Fail> {
    // addi x5, x5, 1, then ecall, twice
    let words = [0x0012_8293, 0x0000_0073, 0x0012_8293, 0x0000_0073];
    let mut lease = own_lease(rt.alloc(), &words, &[0])?;
    let mut cache = DecodeCache::new(rt.alloc())?;
    assert_eq!(rt; lease.run(&mut cache, 10), Halt::Shared);
    assert_eq!(rt; (lease.done, lease.process.regs.pc), (1, 0x1004));
    lease.process.regs.answer(40);
    assert_eq!(rt; lease.run(&mut cache, 10), Halt::Shared);
    assert_eq!(rt; (lease.done, lease.process.regs.pc), (2, 0x100c));
    assert_eq!(rt; lease.process.regs.get(5), 2);
    assert_eq!(rt; lease.process.regs.get(10), 40);
    Ok(())
}
