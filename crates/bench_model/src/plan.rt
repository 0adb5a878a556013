ghost use Rattle.std.specs.Prelude.{◌≡◌, IsTrue, if◌then◌else◌};
ghost use Rattle.std.specs.Bool.{OnTrue};
ghost use Rattle.bench_model.specs.Plans.{no_plan, is_off, strike_of, is_struck, has_no_power};
ghost use Rattle.bench_model.specs.Plans.{after_call, strikes_next, failing_after};

use crate::Choice;

/// A power cut to come.
#[derive(Clone, Copy, Debug, PartialEq, Eq)]
pub struct Armed {
    /// How many steps still succeed before it.
    pub after: u32,
    /// What it leaves of bytes that were not synced.
    pub choice: Choice,
}

/// The plan of faults of a bench.
#[derive(Clone, Copy, Debug, PartialEq, Eq)]
pub struct Plan {
    /// Where power is off: the choice of the cut.
    pub off: Option<Choice>,
    /// The power cut to come.
    pub armed: Option<Armed>,
    /// Which following call fails once, from 1.
    pub failing: Option<u32>,
}

/// What kind of call the plan counts.
#[derive(Clone, Copy, Debug, PartialEq, Eq)]
pub enum Call {
    /// A write, sync, begin, end, put or remove. A power cut may strike it.
    Step,
    /// A read of the flash, of the folder or of a file.
    Look,
}

/// What strikes a call.
#[derive(Clone, Copy, Debug, PartialEq, Eq)]
pub enum Strike {
    /// Nothing does.
    Passes,
    /// Power is off.
    Off,
    /// Power is cut in this call, with this choice.
    Cut(Choice),
    /// This call fails once.
    Fault,
}

impl Plan {
    /// The plan that strikes nothing.
    pub fn empty() -> Plan
        ensures { result ≡ no_plan }
    {
        Plan {
            off: None,
            armed: None,
            failing: None,
        }
    }

    /// Whether power is off.
    pub fn is_off(&self) -> bool
        ensures { result ≡ is_off self.now }
    {
        self.off.is_some()
    }

    /// Counts a call and tells what strikes it.
    pub fn count(&mut self, call: Call) -> Strike
        ensures value { result ≡ strike_of call self.old }
        ensures next { self.new ≡ after_call call self.old }
    {
        if self.off.is_some() {
            return Strike::Off;
        }
        let fault = strike_of_fault(self.failing);
        self.failing = one_call_nearer(self.failing);
        match (call, self.armed) {
            (Call::Step, Some(armed)) if armed.after == 0 => {
                self.armed = None;
                self.off = Some(armed.choice);
                Strike::Cut(armed.choice)
            }
            (Call::Step, Some(armed)) => {
                let after = armed.after - 1;
                self.armed = Some(Armed { after, ..armed });
                fault
            }
            (Call::Step, None) | (Call::Look, _) => fault,
        }
    }
}

impl Strike {
    /// Whether the call fails.
    pub fn is_struck(self) -> bool
        ensures { result ≡ is_struck self }
    {
        !matches!(self, Strike::Passes)
    }

    /// Whether power is off, so that the call does nothing.
    pub fn has_no_power(self) -> bool
        ensures value { result ≡ has_no_power self }
        ensures struck { OnTrue result (IsTrue (is_struck self)) }
    {
        matches!(self, Strike::Off)
    }
}

/// The fault, where it is to strike the next call.
fn strike_of_fault(failing: Option<u32>) -> Strike
    ensures { result ≡ (if strikes_next failing then Strike.Fault else Strike.Passes) }
{
    match failing {
        Some(nth) if nth <= 1 => Strike::Fault,
        _ => Strike::Passes,
    }
}

/// Which call is to fail, once one more was counted.
fn one_call_nearer(failing: Option<u32>) -> Option<u32>
    ensures { result ≡ failing_after failing }
{
    match failing {
        Some(nth) if nth > 1 => Some(nth - 1),
        _ => None,
    }
}
