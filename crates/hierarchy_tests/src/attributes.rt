//! The attributes of a group as words: slot, limits on processes, descendants and depth, local total, total and peak.

use crate::words::Words;
use group_tree::{Attr, Limit, LimitFile, Limits};
use std::alloc::AllocError;
use test_support::CaseFault;

/// The slot that the word with this index is.
fn slot(words: &Words, at: usize) -> Result<u16, CaseFault> {
    match words.text(at).parse::<u16>() {
        Ok(slot) => Ok(slot),
        Err(_) => Err(CaseFault::Malformed),
    }
}

/// The limit that the word with this index is.
pub(crate) fn limit(words: &Words, at: usize) -> Result<Limit, CaseFault> {
    let text = words.text(at);
    if text == "max" {
        return Ok(Limit::Unlimited);
    }
    match text.parse::<u32>() {
        Ok(most) => Ok(Limit::At(most)),
        Err(_) => Err(CaseFault::Malformed),
    }
}

/// The file that the word with this index is.
pub(crate) fn limit_file(words: &Words, at: usize) -> Result<LimitFile, CaseFault> {
    match words.text(at) {
        "pids.max" => Ok(LimitFile::PidsMax),
        "cgroup.max.descendants" => Ok(LimitFile::MaxDescendants),
        "cgroup.max.depth" => Ok(LimitFile::MaxDepth),
        _ => Err(CaseFault::Malformed),
    }
}

/// The attributes that the words from this index on are: all seven, or a slot for those of a new group.
pub(crate) fn attributes(words: &Words, at: usize) -> Result<Attr, CaseFault> {
    let slot = slot(words, at)?;
    let behind = at.saturating_add(1);
    if words.count() <= behind {
        return Ok(Attr::new(slot));
    }
    Ok(Attr {
        limits: Limits {
            pids: limit(words, behind)?,
            descendants: limit(words, behind.saturating_add(1))?,
            depth: limit(words, behind.saturating_add(2))?,
        },
        local: words.number(behind.saturating_add(3))?,
        total: words.number(behind.saturating_add(4))?,
        peak: words.number(behind.saturating_add(5))?,
        slot,
    })
}

pub(crate) fn push_limit(said: &mut String, limit: Limit) -> Result<(), AllocError> {
    match limit {
        Limit::Unlimited => said.push_str("max"),
        Limit::At(most) => write!(said, "{most}"),
    }
}

/// Appends all seven attributes, or `none`.
pub(crate) fn push_attributes(said: &mut String, attr: Option<&Attr>) -> Result<(), AllocError> {
    let Some(attr) = attr else {
        return said.push_str("none");
    };
    write!(said, "{}", attr.slot)?;
    for limit in [attr.limits.pids, attr.limits.descendants, attr.limits.depth] {
        said.push(' ')?;
        push_limit(said, limit)?;
    }
    write!(said, " {} {} {}", attr.local, attr.total, attr.peak)
}
