// The levels of a hierarchy, as the lists that hold them have them.
ghost use Rattle.std.specs.Prelude.{◌≡◌, suc, ◌*◌, ◌≤◌, ◌<◌, ltb, length, get_or, take, drop};
ghost use Rattle.std.specs.Bool.{then_some};

use cut::rate::Rate;

// The levels of a hierarchy: n labels for each, level after level, and the low rate of each but the last.
#[derive(Clone, Copy)]
pub(crate) struct Levels<'a> {
    pub n: usize,
    pub count: usize,
    pub labels: &'a [usize],
    pub low_p: &'a [usize],
    pub low_q: &'a [usize],
    ghost labelled: { count * n ≤ length labels.now },
    ghost rated: { (count ≤ length low_p.now) × (count ≤ length low_q.now) },
}

impl<'a> Levels<'a> {
    // The labels of level i.
    pub(crate) fn level(&self, i: usize) -> &'a [usize]
        requires { i < self.now.count }
        ensures labels { result.now ≡ take self.now.n (drop (i * self.now.n) self.now.labels.now) }
        ensures one_each { length result.now ≡ self.now.n }
    {
        let start = i * self.n;
        &self.labels[start..start + self.n]
    }

    // The low rate of level i.
    pub(crate) fn low(&self, i: usize) -> Option<Rate>
        requires { i < self.now.count }
        ensures { result ≡ then_some (ltb (suc i) self.now.count) (record { p = get_or self.now.low_p.now i 0; q = get_or self.now.low_q.now i 0 }) }
    {
        let has = i + 1 < self.count;
        has.then_some(Rate {
            p: self.low_p[i],
            q: self.low_q[i],
        })
    }
}
