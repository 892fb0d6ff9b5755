//! A program with its own engine: commands by text and by call, a refusal, an undo, and reading a group.
#![tactic(auto)]

use makhloeum::{
    Command, Engine, File, GroupPath, Line, Pid, PlainMeter, Reply, parse_line, put_reply,
};
use std::alloc::Global;
use std::io::Print;
use std::str::from_utf8;
use std::sync::Wait;
use std::thread::Threads;

fn say<R: Print>(rt: &R, alloc: Global, number: u64, reply: &Reply<Global>) -> anyhow::Result<()> {
    let mut answer = Vec::new(alloc);
    put_reply(alloc, &mut answer, number, reply)?;
    print!(rt; "{}", from_utf8(answer.as_slice())?)?;
    Ok(())
}

fn tell<R: Threads + Wait + Sync + Print>(
    rt: &R,
    alloc: Global,
    groups: &mut Engine<Global, PlainMeter<Global>>,
) -> anyhow::Result<()> {
    let lines = [
        "mkdir /jobs",
        "write /jobs pids.max 1",
        "write /jobs cgroup.procs 1",
    ];
    for (number, line) in (1u64..4).zip(lines) {
        if let Line::Run(command) = parse_line(alloc, line.as_bytes())? {
            say(rt, alloc, number, &groups.apply(rt, 0, &command))?;
        }
    }
    if let (Some(parent), Some(child)) = (Pid::new(1), Pid::new(2)) {
        let fork: Command<Global> = Command::Fork { parent, child };
        say(rt, alloc, 4, &groups.apply(rt, 0, &fork))?;
    }
    say(rt, alloc, 5, &groups.undo(rt, 0))?;
    let jobs = GroupPath::read(alloc, b"/jobs")?;
    let limit = groups.render(alloc, &jobs, File::PidsMax)?;
    print!(rt; "pids.max: {}", from_utf8(limit.as_slice())?)?;
    println!(rt; "pids.current: {:?}", groups.current(&jobs))?;
    println!(rt; "populated: {:?}", groups.populated(&jobs))?;
    Ok(())
}

fn main(rt: HostRuntime) -> anyhow::Result<()> {
    let alloc: Global = rt.alloc();
    let mut groups = Engine::new(alloc, PlainMeter::new(alloc)?)?;
    tell(&rt, alloc, &mut groups)
}
