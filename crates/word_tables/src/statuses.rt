//! The table of statuses: what a call of the library for C returns.

use std::io::Print;

// What a status is.
#[derive(Clone, Copy)]
struct Status {
    number: u32,
    c: &'static str,
    errno: &'static str,
    message: &'static str,
    meaning: &'static str,
}

const STATUSES: [Status; 11] = [
    Status {
        number: 0,
        c: "MK_DONE",
        errno: "-",
        message: "done",
        meaning: "the call was answered",
    },
    Status {
        number: 1,
        c: "MK_REFUSED",
        errno: "-",
        message: "refused",
        meaning: "the state refuses the command; only `MK_PIDS_MAX` changes anything: event totals, and it is recorded",
    },
    Status {
        number: 2,
        c: "MK_FAULT",
        errno: "-",
        message: "the text is not a command, or not a path",
        meaning: "the text is not a command, or not a path",
    },
    Status {
        number: 3,
        c: "MK_TOO_SMALL",
        errno: "ERANGE",
        message: "the buffer is too small",
        meaning: "the buffer is too small: `info->needed` bytes, or pids, are enough for this call in this state",
    },
    Status {
        number: 4,
        c: "MK_OUT_OF_MEMORY",
        errno: "ENOMEM",
        message: "out of memory",
        meaning: "out of memory",
    },
    Status {
        number: 5,
        c: "MK_SKIPPED",
        errno: "-",
        message: "a line without a command",
        meaning: "a comment, or a line without words: it has no answer",
    },
    Status {
        number: 6,
        c: "MK_CLOSED",
        errno: "EBADF",
        message: "the handle has no engine; for mk_open, and for the second handle of mk_copy, it has one",
        meaning: "the handle has no engine; for `mk_open`, and for the second handle of `mk_copy`: it has one",
    },
    Status {
        number: 7,
        c: "MK_BUSY",
        errno: "EDEADLK",
        message: "a call of this thread is running",
        meaning: "called by a signal handler that had interrupted a call of the same thread",
    },
    Status {
        number: 8,
        c: "MK_TIMED_OUT",
        errno: "ETIMEDOUT",
        message: "nothing has changed in that time",
        meaning: "nothing has changed in the time of `mk_wait` or `mk_wait_file`",
    },
    Status {
        number: 9,
        c: "MK_FAILED",
        errno: "EIO",
        message: "a fault that mk_fail asked for",
        meaning: "a fault that `mk_fail` asked for",
    },
    Status {
        number: 64,
        c: "MK_WOULD_BLOCK",
        errno: "EAGAIN",
        message: "a call of another thread is running",
        meaning: "by a handle of `mk_nonblocking`: a call of another thread is running",
    },
];

pub(crate) fn print<R: Print>(rt: &R) -> anyhow::Result<()> {
    println!(rt; "# status: number, name in C, errno of the status itself, message, meaning")?;
    for status in STATUSES {
        println!(rt;
            "status\t{}\t{}\t{}\t{}\t{}",
            status.number, status.c, status.errno, status.message, status.meaning
        )?;
    }
    Ok(())
}
