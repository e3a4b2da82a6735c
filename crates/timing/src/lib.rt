// The hierarchy call for a program in C that measures it. It answers the number of levels alone, 0 after a refusal.
// C hands over each list by itself.
#![tactic(auto)]

ghost use Rattle.timing.specs.Timed.{TimedIs};

use grouping::hierarchy::hierarchy;

#[unsafe(no_mangle)]
pub extern "C" fn timing_hierarchy(
    n: usize,
    firsts: &[usize],
    seconds: &[usize],
    signals: &[usize],
    labels: &mut [usize],
    low_p: &mut [usize],
    low_q: &mut [usize],
) -> usize
    ensures { TimedIs n firsts.now seconds.now signals.now labels.old low_p.old low_q.old result labels.new low_p.new low_q.new }
{
    hierarchy(n, firsts, seconds, signals, labels, low_p, low_q).unwrap_or(0)
}
