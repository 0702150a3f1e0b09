// What time it is.
ghost use Rattle.std.specs.Prelude.{◌≡◌, ℤ, Option};
ghost use Rattle.std.specs.Option.{ForSome};

/// Tells the time in milliseconds since 1970 began in UTC.
pub trait Clock {
    /// The number that the clock answers, where it tells one.
    ghost time: { Self → Option ℤ };

    fn now_ms(&mut self) -> i64
        ensures now { ForSome (time self.old) (λ now. result ≡ now) }
        ensures kept { time self.new ≡ time self.old };
}

/// A clock that stands still.
#[derive(Clone, Copy, Debug, PartialEq, Eq)]
pub struct FixedClock {
    now: i64,
}

impl FixedClock {
    ghost use Rattle.std.specs.Prelude.{◌≡◌, Some};

    pub fn at(now_ms: i64) -> FixedClock
        ensures { ⟦<FixedClock as Clock>⟧.time result ≡ Some now_ms }
    {
        FixedClock { now: now_ms }
    }
}

impl Clock for FixedClock {
    ghost use Rattle.std.specs.Prelude.{Some};

    ghost time = { λ clock. Some clock.now };

    fn now_ms(&mut self) -> i64 {
        self.now
    }
}
