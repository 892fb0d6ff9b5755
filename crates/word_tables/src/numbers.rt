//! The table of numbers that several places need.

ghost use Rattle.std.specs.Prelude.{◌≡◌};
ghost use Rattle.flat_model.specs.Values.{limit_max};
ghost use Rattle.group_tree.specs.Flat.{limit_file_of};

use group_path::{DEPTH_MAX, NAME_MAX, TEXT_MAX};
use group_tree::LimitFile;
use pids_charge::{INLINE_PEAKS, LEAVES, PID_MAX, SLOTS};
use std::io::Print;
use trace_lines::LINE_MAX;
use trace_talk::TRACE_MAX;

fn greatest(file: LimitFile) -> u32
    ensures { result ≡ limit_max (limit_file_of file) }
{
    match file {
        LimitFile::PidsMax => 4_194_304,
        LimitFile::MaxDescendants | LimitFile::MaxDepth => 2_147_483_647,
    }
}

pub(crate) fn print<R: Print>(rt: &R) -> anyhow::Result<()> {
    println!(rt; "# number: name, value, meaning")?;
    println!(rt; "number\tSLOTS\t{SLOTS}\tgroups besides the root")?;
    println!(rt; "number\tDEPTH_MAX\t{DEPTH_MAX}\tnames in a path")?;
    println!(rt; "number\tNAME_MAX\t{NAME_MAX}\tbytes in a name")?;
    println!(rt; "number\tTEXT_MAX\t{TEXT_MAX}\tbytes in a path")?;
    println!(rt; "number\tPID_MAX\t{PID_MAX}\tthe greatest pid")?;
    println!(rt;
        "number\tPIDS_LIMIT_MAX\t{}\tthe greatest number that pids.max accepts",
        greatest(LimitFile::PidsMax)
    )?;
    println!(rt;
        "number\tGROUPS_LIMIT_MAX\t{}\tthe greatest number that cgroup.max.descendants and cgroup.max.depth accept; it means no limit",
        greatest(LimitFile::MaxDepth)
    )?;
    println!(rt; "number\tLINE_MAX\t{LINE_MAX}\tbytes in a line that is a command")?;
    println!(rt; "number\tTRACE_MAX\t{TRACE_MAX}\tbytes in a trace that cgreplay reads")?;
    println!(rt;
        "number\tLEAVES\t{LEAVES}\tleaves of a group's indicator, and stripes of its count"
    )?;
    println!(rt;
        "number\tNODES\t{}\tnodes of a group's indicator",
        2 * LEAVES - 1
    )?;
    println!(rt;
        "number\tINLINE_PEAKS\t{INLINE_PEAKS}\tpeaks below 2^32 that a record keeps without memory"
    )?;
    Ok(())
}
