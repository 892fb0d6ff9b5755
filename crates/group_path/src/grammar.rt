//! The grammar of names and paths, tested from left to right.

ghost use Rattle.std.specs.Prelude.{◌≡◌, ◌+◌, ◌<◌, ◌≤◌, ◌^◌, length};
ghost use Rattle.std.specs.List.{position_from, slice_split};
ghost use Rattle.flat_model.specs.PathText.{is_slash, is_name_byte, is_bad_byte, is_dots, is_reserved, text_max, name_fault, names_fault, path_fault};
ghost use Rattle.group_path.specs.FollowsGrammar.{checked};

use crate::fault::PathFault;
use crate::names::Names;

/// The most bytes in a name.
pub const NAME_MAX: usize = 255;

/// The most names in a path.
pub const DEPTH_MAX: usize = 32;

/// The most bytes in the text of a path.
pub const TEXT_MAX: usize = 4095;

fn is_name_byte(b: u8) -> bool
    ensures { result ≡ is_name_byte b }
{
    matches!(b, 0x21..=0x7e) && b != b'/'
}

/// The index of the first byte of a name that is not allowed. The name starts at index `at`.
fn bad_byte(at: usize, name: &[u8]) -> Option<usize>
    requires { at + length name.now < 2 ^ 64 }
    ensures { result ≡ position_from is_bad_byte at name.now }
{
    let mut here = at;
    for b in name {
        if !is_name_byte(*b) {
            return Some(here);
        }
        here += 1;
    }
    None
}

fn is_dots(name: &[u8]) -> bool
    ensures { result ≡ is_dots name.now }
{
    name == b".".as_slice() || name == b"..".as_slice()
}

fn is_reserved(name: &[u8]) -> bool
    ensures { result ≡ is_reserved name.now }
{
    name.starts_with(b"cgroup.") || name.starts_with(b"pids.")
}

/// Tests a name that starts at index `at`.
#[tactic(auto, unfolding(flat_model::specs::PathText::name_fault))]
pub(crate) fn check_name(at: usize, name: &[u8]) -> Result<(), PathFault>
    requires { at + length name.now < 2 ^ 64 }
    ensures { result ≡ checked (name_fault at name.now) }
{
    if name.is_empty() {
        return Err(PathFault::EmptyName);
    }
    if let Some(at) = bad_byte(at, name) {
        return Err(PathFault::BadByte(at));
    }
    if name.len() > NAME_MAX {
        return Err(PathFault::NameTooLong);
    }
    if is_dots(name) {
        return Err(PathFault::DotName);
    }
    if is_reserved(name) {
        return Err(PathFault::Reserved);
    }
    Ok(())
}

/// Tests the names after the first slash of a text.
fn check_names(names: &[u8]) -> Result<(), PathFault>
    requires { length names.now < text_max }
    ensures { result ≡ checked (names_fault 0 1 (slice_split is_slash names.now)) }
{
    let mut at = 1;
    let mut count = 0;
    for name in Names::of(Some(names), DEPTH_MAX + 1) {
        if count == DEPTH_MAX {
            return Err(PathFault::TooDeep);
        }
        check_name(at, name)?;
        at += name.len() + 1;
        count += 1;
    }
    Ok(())
}

/// Tests a text.
#[tactic(auto, unfolding(flat_model::specs::PathText::path_fault))]
pub(crate) fn check_text(text: &[u8]) -> Result<(), PathFault>
    ensures { result ≡ checked (path_fault text.now) }
{
    let [b'/', names @ ..] = text else {
        return Err(PathFault::NotRooted);
    };
    if text.len() > TEXT_MAX {
        return Err(PathFault::TooLong);
    }
    if names.is_empty() {
        return Ok(());
    }
    check_names(names)
}
