// Whether what is handed in is a network.
ghost use Rattle.std.specs.Prelude.{◌≡◌, ◌↔◌, true, false, IsTrue, MatchOption, All, ℕ, ◌≤◌, ◌<◌, ◌^◌, length, take};
ghost use Rattle.network.specs.Calls.{LineFits, Network as IsNetwork};

use rules::{DEVICES, LINES};

// The most that a width or a drain can be: 2⁵⁰, so that no sum of them wraps.
pub const WIDEST: usize = 1125899906842624;

// The lists of a network, which were found to be one.
#[derive(Clone, Copy)]
pub struct Network<'a> {
    pub nodes: usize,
    pub firsts: &'a [usize],
    pub seconds: &'a [usize],
    pub widths: &'a [usize],
    pub drains: &'a [usize],
    pub ghost fits: { IsNetwork nodes firsts.now seconds.now widths.now drains.now },
}

// Whether each line's first end is below the second, both are nodes, and its width is not too large. The lists are those handed in, which
// may be no network yet.
fn lines_fit(k: usize, firsts: &[usize], seconds: &[usize], widths: &[usize]) -> bool
    requires { (length firsts.now ≡ length seconds.now) × (length firsts.now ≡ length widths.now) }
    ensures all_fit { result ≡ true → (l : ℕ) → l < length firsts.now → LineFits k firsts.now seconds.now widths.now l }
    ensures one_not { result ≡ false → (l : ℕ) × (l < length firsts.now) × (LineFits k firsts.now seconds.now widths.now l → ⊥) }
{
    for l in 0..firsts.len() {
        if seconds[l] <= firsts[l] || k <= seconds[l] || WIDEST < widths[l] {
            return false;
        }
    }
    true
}

// Whether no drain of the k nodes is too large.
fn drains_fit(k: usize, drains: &[usize]) -> bool
    requires { k ≤ length drains.now }
    ensures { IsTrue result ↔ All (λ d. d ≤ 2 ^ 50) (take k drains.now) }
{
    drains[..k].iter().all(|drain| *drain <= WIDEST)
}

impl<'a> Network<'a> {
    // The network, if it is one.
    pub fn new(
        nodes: usize,
        firsts: &'a [usize],
        seconds: &'a [usize],
        widths: &'a [usize],
        drains: &'a [usize],
    ) -> Option<Network<'a>>
        ensures { MatchOption result (IsNetwork nodes firsts.now seconds.now widths.now drains.now → ⊥) (λ n. (n.nodes ≡ nodes) × (n.firsts.now ≡ firsts.now) × (n.seconds.now ≡ seconds.now) × (n.widths.now ≡ widths.now) × (n.drains.now ≡ drains.now)) }
    {
        let lines = firsts.len();
        let fits = nodes <= DEVICES
            && lines <= LINES
            && lines == seconds.len()
            && lines == widths.len()
            && nodes <= drains.len()
            && lines_fit(nodes, firsts, seconds, widths)
            && drains_fit(nodes, drains);
        if !fits {
            return None;
        }
        Some(Network {
            nodes,
            firsts,
            seconds,
            widths,
            drains,
        })
    }
}
