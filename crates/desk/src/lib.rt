// The planning desk, which is written in C: it hands over a plant text as bytes and receives labels as bytes. Document 01, "What a call
// fills". It stands on what the text part and the grouping part promise.
#![tactic(auto)]

ghost use Rattle.std.specs.Prelude.{◌≡◌, ℕ, ◌≤◌, ◌<◌, length, get_or};
ghost use Rattle.rules.specs.Groups.{table};
ghost use Rattle.rules.specs.Lists.{over};
ghost use Rattle.grouping.specs.Calls.{grouping_told};
ghost use Rattle.desk.specs.Calls.{desk_answer, desk_labels, DeskIs};

use cut::rate::Rate;
use grouping::grouping::groups_at;
use rules::{DEVICES, Fault, LINES};
use text::read::read_plant;

// Fills the label of each device, as a byte.
fn put_labels(n: usize, found: &[usize; DEVICES], labels: &mut [u8])
    requires { (n ≤ 128) × (n ≤ length labels.old) × ((v : ℕ) → v < n → get_or found.now v 0 < n) }
    ensures { labels.new ≡ over (table n (λ v. get_or found.now v 0)) labels.old }
{
    for v in 0..n {
        labels[v] = found[v] as u8;
    }
}

// Reads the text into lists of its own, finds the groups at p/q, and fills the labels last.
fn grouped(text: &[u8], p: usize, q: usize, labels: &mut [u8]) -> Result<usize, Fault>
    ensures answer { grouping_told result ≡ desk_answer text.now p q (length labels.old) }
    ensures labels_filled { labels.new ≡ desk_labels text.now p q labels.old }
{
    let mut firsts = [0usize; LINES];
    let mut seconds = [0usize; LINES];
    let mut signals = [0usize; LINES];
    let size = read_plant(text, &mut firsts, &mut seconds, &mut signals)?;
    let n = size.devices;
    let m = size.lines;
    let mut found = [0usize; DEVICES];
    let groups = groups_at(
        n,
        &firsts[..m],
        &seconds[..m],
        &signals[..m],
        Rate { p, q },
        &mut found,
    )?;
    if labels.len() < n {
        return Err(Fault::ShortList);
    }
    put_labels(n, &found, labels);
    Ok(groups)
}

// The groups of a plant text at the rate p/q: answers the number, puts the place and the number of groups behind two references, and
// fills for each device the lowest device of its group.
#[unsafe(no_mangle)]
pub extern "C" fn desk_groups(
    text: &[u8],
    p: usize,
    q: usize,
    labels: &mut [u8],
    place: &mut usize,
    groups: &mut usize,
) -> usize
    ensures { DeskIs text.now p q labels.old result place.new groups.new labels.new }
{
    match grouped(text, p, q, labels) {
        Ok(count) => {
            *place = 0;
            *groups = count;
            0
        }
        Err(fault) => {
            *place = fault.place();
            *groups = 0;
            fault.number()
        }
    }
}
