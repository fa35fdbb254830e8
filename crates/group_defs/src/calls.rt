//! The numbers of the system calls, which are those of Linux on RISC-V for the calls of the same names, and the numbers of
//! their errors, as Linux has them and POSIX names them.

/// The number of dup.
pub const DUP: u64 = 23;

/// The number of dup3.
pub const DUP3: u64 = 24;

/// The number of openat.
pub const OPENAT: u64 = 56;

/// The number of close.
pub const CLOSE: u64 = 57;

/// The number of pipe2.
pub const PIPE2: u64 = 59;

/// The number of lseek.
pub const LSEEK: u64 = 62;

/// The number of read.
pub const READ: u64 = 63;

/// The number of write.
pub const WRITE: u64 = 64;

/// The number of fsync.
pub const FSYNC: u64 = 82;

/// The number of exit.
pub const EXIT: u64 = 93;

/// The number of exit_group.
pub const EXIT_GROUP: u64 = 94;

/// The number of sched_yield.
pub const SCHED_YIELD: u64 = 124;

/// The number of getpid.
pub const GETPID: u64 = 172;

/// The number of getppid.
pub const GETPPID: u64 = 173;

/// The number of socketpair.
pub const SOCKETPAIR: u64 = 199;

/// The number of sendto.
pub const SENDTO: u64 = 206;

/// The number of recvfrom.
pub const RECVFROM: u64 = 207;

/// The number of sendmsg.
pub const SENDMSG: u64 = 211;

/// The number of recvmsg.
pub const RECVMSG: u64 = 212;

/// The number of brk.
pub const BRK: u64 = 214;

/// The number of munmap.
pub const MUNMAP: u64 = 215;

/// The number of clone.
pub const CLONE: u64 = 220;

/// The number of mmap.
pub const MMAP: u64 = 222;

/// The number of wait4.
pub const WAIT4: u64 = 260;

/// No file of that name.
pub const ENOENT: u64 = 2;

/// No such descriptor, or none for this call.
pub const EBADF: u64 = 9;

/// No such child.
pub const ECHILD: u64 = 10;

/// No room for another process.
pub const EAGAIN: u64 = 11;

/// A limit of memory, or no addresses left.
pub const ENOMEM: u64 = 12;

/// Bytes that aren't mapped with the right needed.
pub const EFAULT: u64 = 14;

/// The file is there already.
pub const EEXIST: u64 = 17;

/// An argument that the call does not take.
pub const EINVAL: u64 = 22;

/// A limit of the whole group: descriptions, files, pipes or pairs.
pub const ENFILE: u64 = 23;

/// No free descriptor of the process.
pub const EMFILE: u64 = 24;

/// Past the largest size of a file.
pub const EFBIG: u64 = 27;

/// No place to seek to: it is no file.
pub const ESPIPE: u64 = 29;

/// Nobody is left to read.
pub const EPIPE: u64 = 32;

/// No such call.
pub const ENOSYS: u64 = 38;

/// No end of a pair.
pub const ENOTSOCK: u64 = 88;

/// Longer than a message may be.
pub const EMSGSIZE: u64 = 90;
