//! Pids.

ghost use Rattle.std.specs.Prelude.{◌≡◌, MatchOption};
ghost use Rattle.flat_model.specs.CommandText.{IsPid};

use std::marker::Model;

/// The greatest pid.
pub const PID_MAX: u32 = 4_194_303;

/// A pid, from 1 to `PID_MAX`.
#[derive(Clone, Copy, Debug, PartialEq, Eq, PartialOrd, Ord)]
pub struct Pid {
    number: u32,
}

impl Model for Pid {
    ghost use Rattle.std.specs.Prelude.{ℕ};
    ghost use Rattle.flat_model.specs.CommandText.{IsPid};

    ghost Value = { ℕ };

    ghost view = { λ p. p.number };

    ghost inverse = { λ n. record { number = n } };

    ghost invariant = { λ p. IsPid p.number };
}

impl Pid {
    /// The pid with this number; None for 0 and for numbers greater than `PID_MAX`.
    pub fn new(number: u32) -> Option<Pid>
        ensures { MatchOption result (IsPid number → ⊥) (λ pid. pid ≡ number) }
    {
        if number < 1 || number > PID_MAX {
            return None;
        }
        Some(Pid { number })
    }

    // The pid of the process that exists at the start.
    pub(crate) fn first() -> Pid
        ensures { result ≡ 1 }
    {
        Pid { number: 1 }
    }

    // The pid with this number.
    pub(crate) fn of(number: u32) -> Pid
        requires { IsPid number }
        ensures { result ≡ number }
    {
        Pid { number }
    }

    /// The number.
    pub fn get(self) -> u32
        ensures value { result ≡ self }
        ensures range { IsPid self }
    {
        self.number
    }
}
