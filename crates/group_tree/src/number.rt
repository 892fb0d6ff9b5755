//! The number of a name: its first eight bytes. It decides most comparisons of two names in one step, and without reading the
//! block in which a node has its name.

ghost use Rattle.std.specs.Prelude.{◌≡◌};
ghost use Rattle.flat_model.specs.Path.{name_cmp};
ghost use Rattle.group_tree.specs.NameNumber.{IsNumberOf, HasOneNumber};

use std::cmp::Ordering;

/// The first eight bytes of a name as a number, the first byte highest, with zeros behind a shorter name. A smaller number
/// means a smaller name. Where two numbers are equal, `compare_behind` decides.
pub(crate) fn number_of(name: &[u8]) -> u64
    ensures { IsNumberOf name.now result }
{
    match name {
        [a, b, c, d, e, f, g, h, ..] => u64::from_be_bytes([*a, *b, *c, *d, *e, *f, *g, *h]),
        [a, b, c, d, e, f, g] => u64::from_be_bytes([*a, *b, *c, *d, *e, *f, *g, 0]),
        [a, b, c, d, e, f] => u64::from_be_bytes([*a, *b, *c, *d, *e, *f, 0, 0]),
        [a, b, c, d, e] => u64::from_be_bytes([*a, *b, *c, *d, *e, 0, 0, 0]),
        [a, b, c, d] => u64::from_be_bytes([*a, *b, *c, *d, 0, 0, 0, 0]),
        [a, b, c] => u64::from_be_bytes([*a, *b, *c, 0, 0, 0, 0, 0]),
        [a, b] => u64::from_be_bytes([*a, *b, 0, 0, 0, 0, 0, 0]),
        [a] => u64::from_be_bytes([*a, 0, 0, 0, 0, 0, 0, 0]),
        [] => 0,
    }
}

/// Compares two names with one number. Their first eight bytes are equal, or there are zeros where the shorter one has ended:
/// so the lengths decide, or the bytes behind these eight.
pub(crate) fn compare_behind(a: &[u8], b: &[u8]) -> Ordering
    requires { HasOneNumber a.now b.now }
    ensures { result ≡ name_cmp a.now b.now }
{
    if a.len() <= 8 {
        return a.len().cmp(&b.len());
    }
    if b.len() <= 8 {
        return Ordering::Greater;
    }
    compare_rests(&a[8..], &b[8..])
}

/// Compares two texts, of which most are equal: the test for that is faster than a comparison.
fn compare_rests(a: &[u8], b: &[u8]) -> Ordering
    ensures { result ≡ name_cmp a.now b.now }
{
    if a == b {
        return Ordering::Equal;
    }
    a.cmp(b)
}
