//! A path from its text.

ghost use Rattle.std.specs.Prelude.{◌≡◌, IfOk};
ghost use Rattle.flat_model.specs.PathText.{IsPath, path_text};

use group_path::GroupPath;
use std::alloc::Global;
use std::test::Fail;

/// The path with this text.
///
/// # Errors
///
/// `Fail` if the text is not a path, or when out of memory.
pub fn path(alloc: Global, text: &str) -> Result<GroupPath<Global>, Fail>
    ensures { IfOk result (λ p. IsPath p × (text.now ≡ path_text p)) }
{
    Ok(GroupPath::read(alloc, text.as_bytes())?)
}
