//! Cutting a text into lines.

ghost use Rattle.std.specs.Prelude.{◌≡◌};
ghost use Rattle.std.specs.Iterator.{YieldsFirstBy, item_count};
ghost use Rattle.std.specs.List.{position};
ghost use Rattle.flat_model.specs.Trace.{is_line_feed};

use std::marker::Model;

/// The lines of a text, without their line feeds. Bytes after the last line feed are a line, if
/// there are any.
#[derive(Drop)]
pub struct Lines<'a> {
    rest: &'a [u8],
}

impl<'a> Model for Lines<'a> {
    ghost use Rattle.std.specs.Prelude.{ℕ, List};
    ghost use Rattle.flat_model.specs.Trace.{lines_in};

    ghost Value = { List (List ℕ) };

    ghost view = { λ s. lines_in s.rest.now };
}

impl<'a> Lines<'a> {
    ghost use Rattle.flat_model.specs.Trace.{lines_in};

    /// The lines of this text.
    pub fn of(text: &'a [u8]) -> Lines<'a>
        ensures { result ≡ lines_in text.now }
    {
        Lines { rest: text }
    }
}

/// The index of the first line feed.
fn line_end(bytes: &[u8]) -> Option<usize>
    ensures { result ≡ position is_line_feed bytes.now }
{
    bytes.iter().position(|b| *b == b'\n')
}

impl<'a> Iterator for Lines<'a> {
    type Item = &'a [u8];

    ghost next_gives = { YieldsFirstBy (λ line. line.now) (λ lines. lines) };

    ghost remaining = { item_count (λ lines. lines) };

    fn next(&mut self) -> Option<&'a [u8]> {
        let bytes = self.rest;
        if bytes.is_empty() {
            return None;
        }
        match line_end(bytes) {
            Some(end) => {
                self.rest = &bytes[end + 1..];
                Some(&bytes[..end])
            }
            None => {
                self.rest = &bytes[bytes.len()..];
                Some(bytes)
            }
        }
    }
}
