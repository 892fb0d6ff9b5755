//! Limits: the names of their files, and their texts.

ghost use Rattle.std.specs.Prelude.{◌≡◌, IfOk, codes};
ghost use Rattle.flat_model.specs.File as model_file;
ghost use Rattle.flat_model.specs.File.{file_name};
ghost use Rattle.flat_model.specs.FileText.{limit_text};
ghost use Rattle.flat_model.specs.Path.{same_name};
ghost use Rattle.flat_model.specs.Refuse.{map_ok};
ghost use Rattle.flat_model.specs.Values.{limit_max, limit_from, read_limit};
ghost use Rattle.group_tree.specs.Flat.{limit_of, limit_file_of};
ghost use Rattle.interface_files.specs.FileMeaning.{reading_of};

use crate::fault::ValueFault;
use crate::file::File;
use crate::number::{read_number, trimmed};
use group_tree::{Limit, LimitFile};
use itoa::Buffer;
use std::alloc::{AllocError, Allocator};

// The greatest number that `pids.max` accepts.
const PIDS_MAX: u32 = 4_194_304;

// The greatest number that the file of a limit on groups accepts. It means no limit.
const HIERARCHY_LIMIT_MAX: u32 = 2_147_483_647;

// The greatest number that the file accepts.
fn limit_max(file: LimitFile) -> u32
    ensures { result ≡ limit_max (limit_file_of file) }
{
    match file {
        LimitFile::PidsMax => PIDS_MAX,
        LimitFile::MaxDescendants | LimitFile::MaxDepth => HIERARCHY_LIMIT_MAX,
    }
}

// The limit of a number in the file's range.
fn limit_from(file: LimitFile, most: u32) -> Limit
    ensures { limit_of result ≡ limit_from (limit_file_of file) most }
{
    match file {
        LimitFile::PidsMax => Limit::At(most),
        LimitFile::MaxDescendants | LimitFile::MaxDepth => {
            if most == HIERARCHY_LIMIT_MAX {
                Limit::Unlimited
            } else {
                Limit::At(most)
            }
        }
    }
}

fn is_max(word: &[u8]) -> bool
    ensures { result ≡ same_name word.now (codes "max") }
{
    word == b"max".as_slice()
}

/// Reads a limit: `max`, or decimal digits without a leading zero. The greatest number is 4,194,304 for `pids.max`, and
/// 2,147,483,647, which means no limit, for a limit on groups. Blanks, tabs, line feeds and carriage returns at both ends
/// are dropped. Allocates nothing.
///
/// # Errors
///
/// The first that applies, in the order of `ValueFault`.
pub fn read_limit(file: LimitFile, text: &[u8]) -> Result<Limit, ValueFault>
    ensures { map_ok limit_of (reading_of result) ≡ read_limit (limit_file_of file) text.now }
{
    let word = trimmed(text);
    if is_max(word) {
        return Ok(Limit::Unlimited);
    }
    let most = read_number(word, 0, limit_max(file))?;
    Ok(limit_from(file, most))
}

/// The name of a limit's file.
pub fn limit_file_name(file: LimitFile) -> &'static [u8]
    ensures { result.now ≡ file_name (model_file.LimitOf (limit_file_of file)) }
{
    match file {
        LimitFile::PidsMax => File::PidsMax.name(),
        LimitFile::MaxDescendants => File::MaxDescendants.name(),
        LimitFile::MaxDepth => File::MaxDepth.name(),
    }
}

/// The text of a limit: `max`, or the number in decimal digits.
///
/// # Errors
///
/// `AllocError` when out of memory.
pub fn limit_text<B: Allocator>(alloc: B, limit: Limit) -> Result<Vec<u8, B>, AllocError>
    ensures { IfOk result (λ text. text.items ≡ limit_text (limit_of limit)) }
{
    match limit {
        Limit::Unlimited => Vec::from_slice(alloc, b"max"),
        Limit::At(most) => {
            let mut digits = Buffer::new();
            Vec::from_slice(alloc, digits.format(most).as_bytes())
        }
    }
}
