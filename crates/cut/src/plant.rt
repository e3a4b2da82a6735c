// An accepted plant, as the functions behind the calls take it.
ghost use Rattle.std.specs.Prelude.{◌≡◌, OnOk, IfOk};
ghost use Rattle.rules.specs.Accepted.{Accepted};
ghost use Rattle.rules.specs.Refusals.{plant_fault};
ghost use Rattle.rules.specs.Faults.{told};

use crate::check::check_plant;
use rules::Fault;

// A plant that the check accepts: "A plant is n with three lists of one length: first end, second end, signals."
#[derive(Clone, Copy)]
pub struct Plant<'a> {
    pub devices: usize,
    pub firsts: &'a [usize],
    pub seconds: &'a [usize],
    pub signals: &'a [usize],
    pub ghost accepted: { Accepted devices firsts.now seconds.now signals.now },
}

impl<'a> Plant<'a> {
    // The plant of n and three lists, or its first fault.
    pub fn new(
        n: usize,
        firsts: &'a [usize],
        seconds: &'a [usize],
        signals: &'a [usize],
    ) -> Result<Plant<'a>, Fault>
        ensures fault { told result ≡ plant_fault n firsts.entry.now seconds.entry.now signals.entry.now }
        ensures plant { IfOk result (λ g. (g.devices ≡ n) × (g.firsts ≡ firsts.entry) × (g.seconds ≡ seconds.entry) × (g.signals ≡ signals.entry)) }
    {
        check_plant(n, firsts, seconds, signals)?;
        Ok(Plant {
            devices: n,
            firsts,
            seconds,
            signals,
        })
    }
}
