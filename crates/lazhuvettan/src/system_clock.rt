use std::io;
use std::time::SystemTime;
use store_core::Clock;

/// The system's clock. It tells no number beforehand.
#[derive(Drop)]
pub struct SystemClock<R> {
    pub rt: R,
}

impl<R: std::time::Clock> Clock for SystemClock<R> {
    ghost use Rattle.std.specs.Prelude.{None};

    ghost time = { λ _. None };

    // A clock that cannot be read, or is set before 1970, counts as at its beginning.
    fn now_ms(&mut self) -> i64 {
        match since_1970(&self.rt) {
            Ok(millis) => millis,
            Err(_) => 0,
        }
    }
}

fn since_1970<R: std::time::Clock>(rt: &R) -> io::Result<i64> {
    let now = SystemTime::now(rt)?;
    match now.duration_since(SystemTime::UNIX_EPOCH) {
        Ok(since) => Ok(i64::try_from(since.as_millis()).unwrap_or(i64::MAX)),
        Err(_) => Ok(0),
    }
}
