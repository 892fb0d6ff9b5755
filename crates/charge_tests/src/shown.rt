//! All that can be read of charges.

ghost use Rattle.std.specs.Prelude.{◌≡◌};

use crate::changes::Apart;
use group_path::GroupPath;
use pids_charge::{Charges, Meter, Pid};
use std::alloc::{AllocError, Allocator, Global};
use test_support::{Outcome, push_escaped};

/// At most this many groups are shown, and processes up to this number.
const MOST: u32 = 72;

/// Appends the paths of the children of a group to the list, and their names to the text.
fn push_children<A: Allocator + Clone, M: Meter>(
    alloc: Global,
    charges: &Charges<A, M>,
    path: &GroupPath<Global>,
    paths: &mut Vec<GroupPath<Global>>,
    text: &mut String,
) -> Result<(), AllocError> {
    let Some(names) = charges.child_names(path) else {
        return text.push_str(" absent");
    };
    for name in names {
        text.push(' ')?;
        push_escaped(text, name)?;
        let Ok(child) = path.child(alloc, name) else {
            return Err(AllocError);
        };
        paths.push(child)?;
    }
    Ok(())
}

/// Appends what can be read of a group.
fn show_group<A: Allocator + Clone, M: Meter>(
    alloc: Global,
    charges: &mut Charges<A, M>,
    path: &GroupPath<Global>,
    text: &mut String,
) -> Result<(), AllocError>
    ensures kept { charges.new ≡ charges.old }
{
    let current = charges.current(path);
    let populated = charges.populated(path);
    let attr = charges.attr(path).copied();
    let descendants = charges.descendants(path);
    push_escaped(text, path.text())?;
    write!(text, " {attr:?} {descendants:?} {current:?} {populated:?}")?;
    let members = charges.members(alloc, path)?;
    write!(text, " {members:?}")
}

/// Appends the group of each process.
fn show_homes<A: Allocator + Clone, M: Meter>(
    charges: &Charges<A, M>,
    text: &mut String,
) -> Result<(), AllocError> {
    for number in 1..MOST {
        if let Some(pid) = Pid::new(number) {
            if let Some(path) = charges.home(pid) {
                write!(text, " {number}:")?;
                push_escaped(text, path.text())?;
            }
        }
    }
    Ok(())
}

/// Appends all that can be read of charges.
pub(crate) fn show<A: Allocator + Clone, M: Meter>(
    alloc: Global,
    charges: &mut Charges<A, M>,
    text: &mut String,
) -> Result<(), AllocError>
    ensures kept { charges.new ≡ charges.old }
{
    let mut paths = Vec::new(alloc);
    paths.push(GroupPath::root(alloc)?)?;
    for _ in 0..MOST {
        let Some(path) = paths.pop() else {
            break;
        };
        show_group(alloc, charges, &path, text)?;
        push_children(alloc, charges, &path, &mut paths, text)?;
    }
    show_homes(charges, text)
}

/// Copies the charges into this allocator, and says whether the copy reads as they do.
pub(crate) fn is_copied<A: Allocator + Clone, B: Allocator + Clone>(
    alloc: Global,
    over: B,
    charges: &mut Apart<A>,
    said: &mut String,
) -> Result<Outcome, AllocError>
    ensures kept { charges.new ≡ charges.old }
{
    let Ok(mut copy) = charges.copy_plain(over) else {
        return Ok(Outcome::Refused);
    };
    let (mut text, mut other) = (String::new(alloc), String::new(alloc));
    show(alloc, charges, &mut text)?;
    show(alloc, &mut copy, &mut other)?;
    if text.as_str() == other.as_str() {
        said.push_str("ok")?;
    } else {
        said.push_str(other.as_str())?;
    }
    Ok(Outcome::Answered)
}
