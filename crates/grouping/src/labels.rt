// Labels from owners.
ghost use Rattle.std.specs.Prelude.{◌≡◌, ℕ, ◌≤◌, ◌<◌, length, get_or};
ghost use Rattle.rules.specs.Groups.{table, distinct};
ghost use Rattle.rules.specs.Lists.{over};
ghost use Rattle.grouping.specs.Level.{first_with};

use rules::DEVICES;

// Fills for each device the lowest one with its owner, and counts these.
pub fn fill(n: usize, owner: &[usize; DEVICES], labels: &mut [usize]) -> usize
    requires { (n ≤ 128) × (n ≤ length labels.old) × ((v : ℕ) → v < n → get_or owner.now v 0 < n) }
    ensures count { result ≡ distinct (table n (first_with n owner.now)) }
    ensures labels_filled { labels.new ≡ over (table n (first_with n owner.now)) labels.old }
{
    // n stands for none yet: an array of `Option`s takes twice the fixed memory
    let mut first = [n; DEVICES];
    let mut groups = 0;
    for v in 0..n {
        let o = owner[v];
        if first[o] == n {
            first[o] = v;
            groups += 1;
        }
        labels[v] = first[o];
    }
    groups
}
