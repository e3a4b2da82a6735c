// The groups at a rate.
ghost use Rattle.std.specs.Prelude.{◌≡◌};
ghost use Rattle.grouping.specs.Calls.{grouping_told, grouping_answer, labels_after};

use crate::labels::fill;
use cut::owners::owners;
use cut::rate::Rate;
use rules::{DEVICES, Fault};

// The groups at a rate: fills for each device the lowest device of its group, and answers the number of groups.
// The plant comes as n and three lists, wrong ones too: document 01, "A plant is n with three lists of one length".
pub fn groups_at(
    n: usize,
    firsts: &[usize],
    seconds: &[usize],
    signals: &[usize],
    rate: Rate,
    labels: &mut [usize],
) -> Result<usize, Fault>
    ensures answer { grouping_told result ≡ grouping_answer n firsts.now seconds.now signals.now rate.p rate.q labels.old }
    ensures labels_filled { labels.new ≡ labels_after n firsts.now seconds.now signals.now rate.p rate.q labels.old }
{
    let mut owner = [0usize; DEVICES];
    owners(n, firsts, seconds, signals, rate, &mut owner)?;
    let short = labels.len() < n;
    if short {
        return Err(Fault::ShortList);
    }
    Ok(fill(n, &owner, labels))
}
