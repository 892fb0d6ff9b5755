//! One sum, kept in several variables.
//!
//! A set of stripes counts like `LongAdder` of `java.util.concurrent.atomic`: several variables
//! together keep one sum, which starts at zero. An add may go to any variable, and the sum is the
//! total of all. In which variable an amount is stored is not part of the value.
//!
//! What a user can rely on:
//! - The sum of a new set is zero.
//! - After any adds and takes, in any stripes, the sum is everything added less everything taken,
//!   modulo 2^64.
//! - A take may go to another stripe than the add that it undoes.
//! - Every call succeeds and allocates nothing.
//!
//! Not promised: the number of stripes never grows, and there is no reset and no sum-then-reset.
//! Nothing here is atomic: a call borrows the whole set.
//!
//! `total` in `specs/Total.antt` is the sum of a list of stripes. Contracts see a `Stripes` as that
//! number.
#![tactic(auto)]

mod stripes;

pub use stripes::Stripes;
