// The row of one level: a part of the caller's own label list.
ghost use Rattle.std.specs.Prelude.{◌≡◌};
ghost use Rattle.rules.specs.Faults.{told};
ghost use Rattle.grouping.specs.Calls.{row_fault, row_shown};

use rules::{Fault, check_devices};

// The first fault of a row's inputs, if they have one: a label list, n, a level count and a level number.
pub fn check_row(labels: &[usize], n: usize, levels: usize, k: usize) -> Result<(), Fault>
    ensures { told result ≡ row_fault labels.now n levels k }
{
    check_devices(n)?;
    // a name of its own, so that an edit of the test leaves the name of the step
    let over = n < levels;
    if levels <= k || over {
        return Err(Fault::NoSuchLevel);
    }
    if labels.len() < levels * n {
        return Err(Fault::ShortList);
    }
    Ok(())
}

// The row of level k of the label list, and the empty part where `check_row` refuses: "Here a refusal is the empty part".
pub fn row(labels: &[usize], n: usize, levels: usize, k: usize) -> &[usize]
    ensures { result.now ≡ row_shown labels.now n levels k }
{
    if check_row(labels, n, levels, k).is_err() {
        return &labels[0..0];
    }
    let start = k * n;
    &labels[start..start + n]
}
