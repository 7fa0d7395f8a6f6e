//! The clock of a run: it goes from its start to its stop in steps of one length.

ghost use Rattle.std.specs.Prelude.{◌≡◌, ◌^◌, ◌↔◌, ◌+ℤ◌, ◌<ℤ◌, ◌≤ℤ◌, pos, IsTrue, IfOk, IsErrOf, OnErr, OnOk};
ghost use Rattle.cpl_clock.specs.Clock.{ClockView, Goes, IsSound, clock_at_start};

use crate::fault::ClockFault;
use std::marker::Model;

/// A clock of a run. It is seen as its current moment, its stop and its step.
///
/// Source: ESMF Reference Manual, Clock class.
#[derive(Clone, Copy, Debug)]
pub struct Clock {
    current: i64,
    stop: i64,
    step: i64,
}

impl Model for Clock {
    ghost Value = { ClockView };

    ghost view = { λ c. record { current = c.current; stop = c.stop; step = c.step } };

    ghost invariant = { λ c. IsSound (record { current = c.current; stop = c.stop; step = c.step }) };

    ghost inverse = { λ v. record { current = v.current; stop = v.stop; step = v.step } };
}

impl Clock {
    /// A clock that stands at its start. Start and stop lie from 0 to 2^40, and the step is at most
    /// 2^40.
    ///
    /// Errors: `StepZero` where the step is less than a second; else `StopNotAfter` where the stop isn't
    /// after the start.
    ///
    /// Source: ESMF Reference Manual, Clock class.
    pub fn new(start: i64, stop: i64, step: i64) -> Result<Clock, ClockFault>
        requires start_low { pos 0 ≤ℤ start }
        requires start_high { start ≤ℤ pos (2 ^ 40) }
        requires stop_low { pos 0 ≤ℤ stop }
        requires stop_high { stop ≤ℤ pos (2 ^ 40) }
        requires step_high { step ≤ℤ pos (2 ^ 40) }
        ensures value { result ≡ clock_at_start start stop step }
        ensures no_step { IsErrOf result ClockFault.StepZero ↔ (step <ℤ pos 1) }
        ensures no_time { IsErrOf result ClockFault.StopNotAfter
            ↔ ((pos 1 ≤ℤ step) × (stop ≤ℤ start)) }
        ensures opens { IfOk result
            (λ c. c ≡ record { current = start; stop = stop; step = step }) }
    {
        if step < 1 {
            return Err(ClockFault::StepZero);
        }
        if stop <= start {
            return Err(ClockFault::StopNotAfter);
        }
        Ok(Clock {
            current: start,
            stop,
            step,
        })
    }

    /// Goes a step further.
    ///
    /// Errors: `PastStop` where that would be past the stop, and then the clock stays as it was.
    ///
    /// Source: ESMF Reference Manual, Clock class.
    pub fn advance(&mut self) -> Result<(), ClockFault>
        ensures steps { Goes self.old result self.new }
        ensures past { IsErrOf result ClockFault.PastStop
            ↔ (self.old.stop <ℤ (self.old.current +ℤ self.old.step)) }
        ensures kept { OnErr result (self.new ≡ self.old) }
        ensures moved { OnOk result
            (self.new ≡ record self.old { current = self.old.current +ℤ self.old.step }) }
    {
        if self.current + self.step > self.stop {
            return Err(ClockFault::PastStop);
        }
        self.current += self.step;
        Ok(())
    }

    /// The moment at which the clock stands.
    ///
    /// Source: ESMF Reference Manual, Clock class.
    pub fn current(&self) -> i64
        ensures { result ≡ self.now.current }
    {
        self.current
    }

    /// Whether the clock stands at the moment.
    ///
    /// Source: this project's own.
    pub fn is_at(&self, moment: i64) -> bool
        ensures { IsTrue result ↔ (self.now.current ≡ moment) }
    {
        self.current == moment
    }
}
