// A network with an index of each node's lines.
ghost use Rattle.std.specs.Prelude.{length, ◌≡◌, true, ◌≤◌, ◌<◌};
ghost use Rattle.network.specs.Search.{behind, Laid, Before, Lasts, Priors, touches, far_end_of};

use crate::judge::Network;
use rules::{DEVICES, LINES};

// `last[v]` is one more than the last line of node v, and 0 where it has none; `before_first[l]` and `before_second[l]` say the same of
// the lines below l, for the first and for the second end of line l. They are no `Option`s: only `line_of`
// reads such a number, and an array of `Option`s takes twice the fixed memory that stands in for a heap.
#[derive(Drop)]
pub struct Lines<'a> {
    pub network: Network<'a>,
    last: [usize; DEVICES],
    before_first: [usize; LINES],
    before_second: [usize; LINES],
    pub ghost laid: { Laid network.firsts.now network.seconds.now },
    pub ghost lasts: { Lasts network.firsts.now network.seconds.now (length network.firsts.now) last },
    pub ghost priors: { Priors network.firsts.now network.seconds.now (length network.firsts.now) before_first before_second },
}

// The line that such a number says.
fn line_of(number: usize) -> Option<usize>
    ensures { behind result ≡ number }
{
    number.checked_sub(1)
}

impl<'a> Lines<'a> {
    // The index of all lines of a network.
    pub fn new(network: &Network<'a>) -> Lines<'a>
        ensures { result.network ≡ network.now }
    {
        let firsts = network.firsts;
        let seconds = network.seconds;
        let mut last = [0; DEVICES];
        let mut before_first = [0; LINES];
        let mut before_second = [0; LINES];
        for l in 0..firsts.len() {
            let a = firsts[l];
            let b = seconds[l];
            before_first[l] = last[a];
            before_second[l] = last[b];
            last[a] = l + 1;
            last[b] = l + 1;
        }
        Lines {
            network: *network,
            last,
            before_first,
            before_second,
        }
    }

    // The last line of node v.
    pub fn last_of(&self, v: usize) -> Option<usize>
        requires { v < 128 }
        ensures { Before self.now.network.firsts.now self.now.network.seconds.now v (length self.now.network.firsts.now) (behind result) }
    {
        line_of(self.last[v])
    }

    // The line of node v before line l, which is one of its own.
    pub fn before(&self, v: usize, l: usize) -> Option<usize>
        requires line { l < length self.now.network.firsts.now }
        requires own { touches self.now.network.firsts.now self.now.network.seconds.now l v ≡ true }
        ensures { Before self.now.network.firsts.now self.now.network.seconds.now v l (behind result) }
    {
        if self.network.firsts[l] == v {
            return line_of(self.before_first[l]);
        }
        line_of(self.before_second[l])
    }

    // The other end of line l of node u.
    #[tactic(auto, unfolding(crate::specs::Search::far_end_of))]
    pub fn far_end(&self, l: usize, u: usize) -> usize
        requires { l < length self.now.network.firsts.now }
        ensures device { result < 128 }
        ensures end { result ≡ far_end_of self.now.network.firsts.now self.now.network.seconds.now l u }
    {
        if self.network.firsts[l] == u {
            return self.network.seconds[l];
        }
        self.network.firsts[l]
    }
}
