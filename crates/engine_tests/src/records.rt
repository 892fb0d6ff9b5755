//! Records as text.

use group_tree::Attr;
use interface_files::{limit_file_name, limit_text};
use pids_charge::{LostList, Peaks};
use std::alloc::{AllocError, Allocator, Global};
use test_support::push_escaped;
use undo_journal::Inverse;

/// Appends the attributes of a removed group.
fn push_attr(alloc: Global, text: &mut String, attr: &Attr) -> Result<(), AllocError> {
    for (word, limit) in [
        ("pids", attr.limits.pids),
        ("descendants", attr.limits.descendants),
        ("depth", attr.limits.depth),
    ] {
        write!(text, ", {word} ")?;
        let limit = limit_text(alloc, limit)?;
        push_escaped(text, limit.as_slice())?;
    }
    let (local, total, peak) = (attr.local, attr.total, attr.peak);
    write!(text, ", refused {local} of {total}, peak {peak}")
}

/// Appends old peaks.
fn push_peaks<A: Allocator + Clone>(text: &mut String, peaks: &Peaks<A>) -> Result<(), AllocError> {
    text.push_str(", peaks")?;
    for i in 0..peaks.len() {
        let peak = peaks.peak(i);
        write!(text, " {peak}")?;
    }
    Ok(())
}

/// Appends the processes that a kill removed.
fn push_lost<A: Allocator + Clone>(
    text: &mut String,
    list: &LostList<A>,
) -> Result<(), AllocError> {
    text.push_str("killed")?;
    for lost in list.as_slice() {
        write!(text, " {} in ", lost.pid.get())?;
        push_escaped(text, lost.path.text())?;
    }
    Ok(())
}

/// Appends a record.
pub(crate) fn push_record<A: Allocator + Clone>(
    alloc: Global,
    text: &mut String,
    record: &Inverse<A>,
) -> Result<(), AllocError> {
    match record {
        Inverse::Made { path } => {
            text.push_str("made ")?;
            push_escaped(text, path.text())
        }
        Inverse::Removed { path, attr } => {
            text.push_str("removed ")?;
            push_escaped(text, path.text())?;
            push_attr(alloc, text, &**attr)
        }
        Inverse::Forked { pid, peaks } => {
            write!(text, "forked {}", pid.get())?;
            push_peaks(text, peaks)
        }
        Inverse::Exited { pid, path } => {
            write!(text, "exited {} from ", pid.get())?;
            push_escaped(text, path.text())
        }
        Inverse::Moved { pid, path, peaks } => {
            write!(text, "moved {} from ", pid.get())?;
            push_escaped(text, path.text())?;
            push_peaks(text, peaks)
        }
        Inverse::Limited { path, file, value } => {
            text.push_str("limited ")?;
            push_escaped(text, path.text())?;
            text.push_str(" ")?;
            push_escaped(text, limit_file_name(*file))?;
            text.push_str(", was ")?;
            let limit = limit_text(alloc, *value)?;
            push_escaped(text, limit.as_slice())
        }
        Inverse::Counted { path } => {
            text.push_str("counted ")?;
            push_escaped(text, path.text())
        }
        Inverse::Killed { list } => push_lost(text, list),
    }
}
