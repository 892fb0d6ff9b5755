//! Cutting a line into words.

ghost use Rattle.std.specs.Prelude.{◌≡◌, not, false, option_map};
ghost use Rattle.std.specs.Iterator.{YieldsFirstBy, item_count};
ghost use Rattle.std.specs.List.{position};
ghost use Rattle.flat_model.specs.Path.{same_name};
ghost use Rattle.flat_model.specs.Trace.{is_blank, words_in};
ghost use Rattle.trace_lines.specs.Cut.{begins_with_blank, the_one, the_two, the_three};

use std::marker::Model;

/// The words of a line: the longest runs of bytes other than spaces, tabs and carriage returns.
#[derive(Drop)]
pub(crate) struct Words<'a> {
    rest: &'a [u8],
}

impl<'a> Model for Words<'a> {
    ghost use Rattle.std.specs.Prelude.{ℕ, List};
    ghost use Rattle.flat_model.specs.Trace.{words_in};

    ghost Value = { List (List ℕ) };

    ghost view = { λ s. words_in s.rest.now };
}

impl<'a> Words<'a> {
    ghost use Rattle.flat_model.specs.Trace.{words_in};

    /// The words of this line.
    pub(crate) fn of(line: &'a [u8]) -> Words<'a>
        ensures { result ≡ words_in line.now }
    {
        Words { rest: line }
    }
}

fn is_blank(b: u8) -> bool
    ensures { result ≡ is_blank b }
{
    matches!(b, b' ' | b'\t' | b'\r')
}

/// The index at which the first word begins.
fn word_start(bytes: &[u8]) -> Option<usize>
    ensures { result ≡ position (λ b. not (is_blank b)) bytes.now }
{
    bytes.iter().position(|b| !is_blank(*b))
}

/// The line without the blanks at its front.
fn behind_blanks(line: &[u8]) -> &[u8]
    ensures words { words_in result.now ≡ words_in line.now }
    ensures first { begins_with_blank result.now ≡ false }
{
    match word_start(line) {
        Some(start) => &line[start..],
        None => &line[line.len()..],
    }
}

/// The index of the first blank.
fn word_end(bytes: &[u8]) -> Option<usize>
    ensures { result ≡ position is_blank bytes.now }
{
    bytes.iter().position(|b| is_blank(*b))
}

impl<'a> Iterator for Words<'a> {
    type Item = &'a [u8];

    ghost next_gives = { YieldsFirstBy (λ word. word.now) (λ words. words) };

    ghost remaining = { item_count (λ words. words) };

    fn next(&mut self) -> Option<&'a [u8]> {
        let bytes = behind_blanks(self.rest);
        if bytes.is_empty() {
            return None;
        }
        match word_end(bytes) {
            Some(end) => {
                self.rest = &bytes[end + 1..];
                Some(&bytes[..end])
            }
            None => {
                self.rest = &bytes[bytes.len()..];
                Some(bytes)
            }
        }
    }
}

/// Whether the word is this text. It is a loop, since most words differ in their length or their first byte, and `==` of
/// slices begins with a choice of how to compare them.
#[inline(always)]
pub(crate) fn is_word(word: &[u8], text: &[u8]) -> bool
    ensures { result ≡ same_name word.now text.now }
{
    if word.len() != text.len() {
        return false;
    }
    for i in 0..text.len() {
        if word[i] != text[i] {
            return false;
        }
    }
    true
}

/// The word, if it is the only one.
pub(crate) fn one_word<'a>(words: Words<'a>) -> Option<&'a [u8]>
    ensures { option_map (λ w. w.now) result ≡ the_one words.entry }
{
    let mut words = words;
    let first = words.next()?;
    match words.next() {
        Some(_) => None,
        None => Some(first),
    }
}

/// The words, if there are exactly two.
pub(crate) fn two_words<'a>(words: Words<'a>) -> Option<(&'a [u8], &'a [u8])>
    ensures { option_map (λ w. (w.0.now, w.1.now)) result ≡ the_two words.entry }
{
    let mut words = words;
    let first = words.next()?;
    let second = words.next()?;
    match words.next() {
        Some(_) => None,
        None => Some((first, second)),
    }
}

/// The words, if there are exactly three.
pub(crate) fn three_words<'a>(words: Words<'a>) -> Option<(&'a [u8], &'a [u8], &'a [u8])>
    ensures { option_map (λ w. (w.0.now, w.1.now, w.2.now)) result ≡ the_three words.entry }
{
    let mut words = words;
    let first = words.next()?;
    let second = words.next()?;
    let third = words.next()?;
    match words.next() {
        Some(_) => None,
        None => Some((first, second, third)),
    }
}
