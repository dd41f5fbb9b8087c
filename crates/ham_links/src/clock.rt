//! Clocks.

ghost use Rattle.std.specs.Prelude.{◌≡◌};

use std::thread;
use std::time::Duration;

/// Something to pause by.
pub trait Clock {
    /// Pauses for a while.
    fn pause(&mut self);
}

/// A clock that doesn't pause.
#[derive(Clone, Copy, Debug, PartialEq, Eq)]
pub struct NoClock;

impl Clock for NoClock {
    fn pause(&mut self) {}
}

/// The pause of the clocks and of the sockets: 200 ms.
pub(crate) fn beat() -> Duration {
    Duration::from_millis(200)
}

/// A clock that sleeps for 200 ms.
#[derive(Drop)]
pub struct SleepClock<K: std::time::Clock + Drop> {
    clock: K,
}

impl<K: std::time::Clock + Drop> SleepClock<K> {
    /// A clock that sleeps by this one.
    pub fn new(clock: K) -> SleepClock<K>
        ensures { result.clock ≡ clock }
    {
        SleepClock { clock }
    }
}

impl<K: std::time::Clock + Drop> Clock for SleepClock<K> {
    fn pause(&mut self) {
        thread::sleep(&self.clock, beat());
    }
}
