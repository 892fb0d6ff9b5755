//! A desk with two sessions, each in a thread of its own. The log says which session ran what, in
//! one order.
#![tactic(auto)]

use anyhow::bail;
use makhloeum::{Command, Desk, Pid, Session, is_refused};
use std::alloc::Global;
use std::sync::Wait;
use std::thread::{Threads, join};

/// Process 1 forks ten processes.
fn forks<R: Threads + Wait + Sync>(rt: &R, mut session: Session, first: u32) -> Session {
    for number in first..first.saturating_add(10) {
        if let (Some(parent), Some(child)) = (Pid::new(1), Pid::new(number)) {
            let fork: Command<Global> = Command::Fork { parent, child };
            let _ = session.run(rt, &fork);
        }
    }
    session
}

fn main(rt: HostRuntime) -> anyhow::Result<()> {
    let desk = Desk::new(rt.alloc(), 2)?;
    let (one, two) = (desk.session(0)?, desk.session(1)?);
    let (one, two) = join(&rt, || forks(&rt, one, 100), || forks(&rt, two, 105));
    let mut closed = match desk.close(&rt, vec![in rt.alloc(); one, two]?) {
        Ok(closed) => closed,
        Err((_, _, fault)) => bail!("the desk was not closed: {fault}"),
    };
    let refused = closed
        .log
        .iter()
        .filter(|entry| is_refused(&entry.reply))
        .count();
    println!(rt; "{} commands, {refused} refused", closed.log.len())?;
    println!(rt; "{} can be undone", closed.engine.depth())?;
    println!(rt; "undone: {:?}", closed.engine.undo_all(&rt, 0))?;
    Ok(())
}
