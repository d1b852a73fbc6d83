//! The paths of keys, as an error shows them.
ghost use Rattle.std.specs.Prelude.{◌≡◌, ◌++◌, String, string_bytes, IfOk};
ghost use Rattle.hk_sheet.specs.Faults.{shown, goes_on, task_path};

use crate::Key;
use crate::sheet::MAX_KEY;
use std::alloc::{AllocError, Global};

/// How the paths in the table of a task begin, as `high[0].`
pub(crate) fn task_path(alloc: Global, kind: &str, index: usize) -> Result<String, AllocError>
    ensures { IfOk result (λ s. string_bytes s ≡ task_path kind.now index) }
{
    format!(in alloc; "{kind}[{index}].")
}

/// One text after another.
fn joined(alloc: Global, path: &str, key: &str) -> Result<Vec<u8>, AllocError>
    ensures { IfOk result (λ v. v.items ≡ path.now ++ key.now) }
{
    let mut items = Vec::from_slice(alloc, path.as_bytes())?;
    items.extend_from_slice(key.as_bytes())?;
    Ok(items)
}

/// The path of a key of a table whose paths begin so.
pub(crate) fn key_at(alloc: Global, path: &str, key: &str) -> Result<Key, AllocError>
    ensures { IfOk result (λ k. k ≡ path.now ++ key.now) }
{
    let items = joined(alloc, path, key)?;
    Ok(Key { items })
}

/// Whether a byte goes on with a character that has begun.
fn goes_on(byte: u8) -> bool
    ensures { result ≡ goes_on byte }
{
    128 <= byte && byte < 192
}

/// The path of an unknown key: each character outside `!` to `~` is a `?`, and it is cut.
#[tactic(auto, unfolding(crate::specs::Faults::shown))]
pub(crate) fn shown_at(alloc: Global, path: &str, key: &str) -> Result<Key, AllocError>
    ensures { IfOk result (λ k. k ≡ shown (path.now ++ key.now)) }
{
    let whole = joined(alloc, path, key)?;
    let mut items = Vec::new(alloc);
    for byte in &whole {
        if byte.is_ascii_graphic() {
            items.push(*byte)?;
        } else if !goes_on(*byte) {
            items.push(b'?')?;
        }
    }
    items.truncate(MAX_KEY);
    Ok(Key { items })
}
