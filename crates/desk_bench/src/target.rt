//! Where a thread makes its calls, and its work there.

ghost use Rattle.std.specs.Prelude.{◌≤◌};

use group_path::GroupPath;
use pids_charge::{Pid, PlainMeter};
use sessions::{DeskEngine, RunFault, Session};
use std::alloc::Global;
use std::sync::{Arc, Mutex, Wait};
use std::thread::Threads;
use undo_journal::{Command, Engine, Reply};

/// How many pids a thread forks, over and over.
const CHILDREN: u32 = 1000;

/// An engine over a plain meter.
pub(crate) type PlainEngine = Engine<Global, PlainMeter<Global>>;

/// What a thread calls.
#[derive(Drop)]
pub(crate) enum Target {
    /// A session of its own, at a desk.
    Desk(Session),
    /// An engine over a board, which all threads share.
    Board(Arc<Mutex<DeskEngine>>),
    /// An engine over a plain meter, which all threads share.
    Plain(Arc<Mutex<PlainEngine>>),
}

impl Target {
    /// Runs a command, and returns whether the reply is `Done`.
    fn does<R: Threads + Wait + Sync>(&mut self, rt: &R, command: &Command<Global>) -> bool {
        match self {
            Target::Desk(session) => match session.run(rt, command) {
                Ok(receipt) => matches!(receipt.reply, Reply::Done),
                Err(RunFault::OutOfMemory | RunFault::TurnPassed(_) | RunFault::Halted) => false,
            },
            Target::Board(engine) => matches!(engine.lock(rt).apply(rt, 0, command), Reply::Done),
            Target::Plain(engine) => matches!(engine.lock(rt).apply_alone(0, command), Reply::Done),
        }
    }
}

/// A target, with the process that forks there, if it was made.
#[derive(Drop)]
pub(crate) struct Worker {
    target: Target,
    parent: Option<Pid>,
}

impl Worker {
    /// Forks a process or ends it, in turn, `calls` times. Returns how many calls were answered by `Done`.
    pub(crate) fn work<R: Threads + Wait + Sync>(self, rt: &R, calls: u32) -> u32
        ensures { result ≤ calls }
    {
        let Worker { mut target, parent } = self;
        let Some(parent) = parent else {
            return 0;
        };
        let mut done = 0;
        for call in 0..calls {
            if let Some(command) = nth_call(parent, call)
                && target.does(rt, &command)
            {
                done += 1;
            }
        }
        done
    }
}

/// A thread's call with this number: a fork, or the exit of that child.
fn nth_call(parent: Pid, call: u32) -> Option<Command<Global>> {
    let child = Pid::new(parent.get() + 1 + call / 2 % CHILDREN)?;
    if call % 2 == 0 {
        Some(Command::Fork { parent, child })
    } else {
        Some(Command::Exit(child))
    }
}

/// A thread's worker at this target. Makes the process that forks there, in this group, which is made unless it exists.
pub(crate) fn settled<R: Threads + Wait + Sync>(
    rt: &R,
    alloc: Global,
    target: Target,
    group: &str,
    number: u8,
) -> Worker {
    let mut target = target;
    let parent = entered(
        rt,
        alloc,
        &mut target,
        group,
        2 + u32::from(number) * (CHILDREN + 1),
    );
    Worker { target, parent }
}

/// Makes this process in this group; None if it could not be made. The group is made unless it exists.
fn entered<R: Threads + Wait + Sync>(
    rt: &R,
    alloc: Global,
    target: &mut Target,
    group: &str,
    number: u32,
) -> Option<Pid> {
    let pid = Pid::new(number)?;
    let fork: Command<Global> = Command::Fork {
        parent: Pid::new(1)?,
        child: pid,
    };
    let path = group_path(alloc, group)?;
    target.does(rt, &Command::MakeGroup(group_path(alloc, group)?));
    let is_entered = target.does(rt, &fork) && target.does(rt, &Command::Move { path, pid });
    if is_entered { Some(pid) } else { None }
}

fn group_path(alloc: Global, text: &str) -> Option<GroupPath<Global>> {
    match GroupPath::read(alloc, text.as_bytes()) {
        Ok(path) => Some(path),
        Err(_) => None,
    }
}
