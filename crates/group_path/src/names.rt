//! The names of a path, in order.

ghost use Rattle.std.specs.Prelude.{◌≡◌, ◌%◌, ◌^◌, count_by};
ghost use Rattle.std.specs.Iterator.{YieldsFirstBy, item_count};
ghost use Rattle.std.specs.List.{position};
ghost use Rattle.flat_model.specs.PathText.{is_slash};

use memchr::memchr;
use std::marker::Model;

/// The names of a path from the root down, or the first of them, as slices of its text.
#[derive(Drop)]
pub struct Names<'a> {
    /// The text after the next slash, if there is one.
    rest: Option<&'a [u8]>,
    /// The greatest number of names still to return.
    left: usize,
}

impl<'a> Model for Names<'a> {
    ghost use Rattle.std.specs.Prelude.{ℕ, List, take, option_map};
    ghost use Rattle.group_path.specs.Names.{names_behind};

    ghost Value = { List (List ℕ) };

    ghost view = { λ s. take s.left (names_behind (option_map (λ bytes. bytes.now) s.rest)) };
}

impl<'a> Names<'a> {
    ghost use Rattle.std.specs.Prelude.{take, option_map};
    ghost use Rattle.group_path.specs.Names.{names_behind};

    /// The first `left` names in the text after a slash, if there is one.
    pub(crate) fn of(rest: Option<&'a [u8]>, left: usize) -> Names<'a>
        ensures { result ≡ take left (names_behind (option_map (λ bytes. bytes.now) rest.entry)) }
    {
        Names { rest, left }
    }
}

/// How many bytes are searched one by one. Most names are shorter, and a search by vectors costs more to begin.
const NEAR: usize = 16;

/// The index of the first slash, byte by byte.
fn near_slash(bytes: &[u8]) -> Option<usize>
    ensures { result ≡ position is_slash bytes.now }
{
    bytes.iter().position(|b| *b == b'/')
}

/// The index of the first slash, by vectors.
fn far_slash(bytes: &[u8]) -> Option<usize>
    ensures { result ≡ position is_slash bytes.now }
{
    memchr(b'/', bytes)
}

/// How many slashes there are, modulo 256: with a byte for the count, a vector counts sixteen bytes at once.
pub(crate) fn slashes(bytes: &[u8]) -> u8
    ensures { result ≡ count_by is_slash bytes.now % 2 ^ 8 }
{
    let mut count = 0u8;
    for byte in bytes {
        count = count.wrapping_add(u8::from(*byte == b'/'));
    }
    count
}

/// The index of the first slash: byte by byte among the first `NEAR` bytes, then by vectors.
fn next_slash(bytes: &[u8]) -> Option<usize>
    ensures { result ≡ position is_slash bytes.now }
{
    if bytes.len() <= NEAR {
        return near_slash(bytes);
    }
    let (near, far) = bytes.split_at(NEAR);
    if let Some(at) = near_slash(near) {
        return Some(at);
    }
    match far_slash(far) {
        Some(at) => Some(NEAR + at),
        None => None,
    }
}

impl<'a> Iterator for Names<'a> {
    type Item = &'a [u8];

    ghost next_gives = { YieldsFirstBy (λ name. name.now) (λ names. names) };

    ghost remaining = { item_count (λ names. names) };

    fn next(&mut self) -> Option<&'a [u8]> {
        if self.left == 0 {
            return None;
        }
        let bytes = self.rest?;
        self.left -= 1;
        match next_slash(bytes) {
            Some(end) => {
                self.rest = Some(&bytes[end + 1..]);
                Some(&bytes[..end])
            }
            None => {
                self.rest = None;
                Some(bytes)
            }
        }
    }
}
