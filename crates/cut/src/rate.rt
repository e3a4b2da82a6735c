// A rate p/q: its least and its largest, comparison by cross products, and reduction to lowest terms.
ghost use Rattle.std.specs.Prelude.{◌≡◌, ◌≤◌, ◌<◌, IfOk};
ghost use Rattle.rules.specs.Refusals.{rate_fault};
ghost use Rattle.rules.specs.Faults.{told};
ghost use Rattle.cut.specs.RateCalls.{compared, compare_told, Reduction, reduce_told};
ghost use Rattle.cut.specs.RateLoop.{Divisor};

use rules::Fault;
use std::cmp::Ordering;

// A rate p/q, in range or not. `==` holds of two pairs of numbers that are the same; "fractions compare by cross products", which `compare`
// does.
#[derive(Clone, Copy, Debug, PartialEq, Eq)]
pub struct Rate {
    pub p: usize,
    pub q: usize,
}

// A rate in range, as the functions behind the calls take it.
#[derive(Clone, Copy, PartialEq, Eq)]
pub struct AcceptedRate {
    pub p: usize,
    pub q: usize,
    pub ghost p_least: { 1 ≤ p },
    pub ghost p_most: { p ≤ 100000000 },
    pub ghost q_least: { 1 ≤ q },
    pub ghost q_most: { q ≤ 1000 },
}

impl AcceptedRate {
    // The least and the largest rate that can be handed in.
    pub const LEAST: AcceptedRate = AcceptedRate {
        p: Rate::LEAST.p,
        q: Rate::LEAST.q,
    };

    pub const LARGEST: AcceptedRate = AcceptedRate {
        p: Rate::LARGEST.p,
        q: Rate::LARGEST.q,
    };
}

impl From<AcceptedRate> for Rate {
    ghost from_gives = { λ a r. (r.p ≡ a.p) × (r.q ≡ a.q) };

    fn from(rate: AcceptedRate) -> Rate {
        Rate {
            p: rate.p,
            q: rate.q,
        }
    }
}

// A number that divides p and q, and that each of their common divisors divides.
fn common(p: usize, q: usize) -> usize
    requires { 1 ≤ p }
    ensures { Divisor p q result }
{
    let mut a = p;
    let mut b = q;
    while 0 < b {
        let rest = a % b;
        a = b;
        b = rest;
    }
    a
}

impl Rate {
    // "p 1 to 100,000,000; q 1 to 1,000": the least rate that can be handed in is 1/1,000 and the largest 100,000,000/1.
    pub const LEAST: Rate = Rate { p: 1, q: 1000 };

    pub const LARGEST: Rate = Rate { p: 100000000, q: 1 };

    // The rate, where p and q are in range.
    pub(crate) fn check(self) -> Result<AcceptedRate, Fault>
        ensures fault { told result ≡ rate_fault self.p self.q }
        ensures rate { IfOk result (λ r. (r.p ≡ self.p) × (r.q ≡ self.q)) }
    {
        let p = self.p;
        let q = self.q;
        if p < Rate::LEAST.p || Rate::LARGEST.p < p || q < Rate::LARGEST.q || Rate::LEAST.q < q {
            return Err(Fault::RateOffRange);
        }
        Ok(AcceptedRate { p, q })
    }

    // Whether this rate is below the other, the same fraction, or above it.
    pub fn compare(self, other: Rate) -> Result<Ordering, Fault>
        ensures { compare_told result ≡ compared self.p self.q other.p other.q }
    {
        self.check()?;
        other.check()?;
        let here = self.p * other.q;
        let there = other.p * self.q;
        Ok(here.cmp(&there))
    }

    // The same fraction in lowest terms.
    pub fn reduce(self) -> Result<Rate, Fault>
        ensures { Reduction self.p self.q (reduce_told result) }
    {
        self.check()?;
        let by = common(self.p, self.q);
        Ok(Rate {
            p: self.p / by,
            q: self.q / by,
        })
    }
}
