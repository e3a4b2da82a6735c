// Reading a plant text into three lent lists: the form of the whole text, then its values in the fixed order, then room; the lists are
// filled last.
ghost use Rattle.std.specs.Prelude.{◌≡◌, ◌≤◌, length};
ghost use Rattle.rules.specs.Faults.{told};
ghost use Rattle.rules.specs.Lists.{over};
ghost use Rattle.text.specs.Reading.{size_fault_of, no_room_of, read_told, ReadIs};

use crate::Size;
use crate::whole::{Stated, form_of, keep_rows};
use cut::check::check_plant;
use rules::{Fault, LINES, check_devices};

// What the stated numbers are refused for: 1, 2 and 4.
fn check_size(n: usize, m: usize) -> Result<(), Fault>
    ensures { told result ≡ size_fault_of n m }
{
    check_devices(n)?;
    if LINES < m {
        return Err(Fault::ManyLines);
    }
    Ok(())
}

// Copies a list to the front of a lent one: std's method, with what its law is about as the contract.
fn fill(list: &mut [usize], from: &[usize])
    requires { length from.now ≤ length list.old }
    ensures { list.new ≡ over from.now list.old }
{
    list[..from.len()].copy_from_slice(from);
}

// Whether one of three lists, of a, b and c entries, has no room for m lines.
#[tactic(auto, unfolding(crate::specs::Reading::no_room_of))]
fn no_room(m: usize, a: usize, b: usize, c: usize) -> bool
    ensures { result ≡ no_room_of m a b c }
{
    [a, b, c].iter().any(|room| *room < m)
}

// The devices and the number of lines of a plant text, whose lines fill the three lists, as document 01 lends them.
pub fn read_plant(
    text: &[u8],
    firsts: &mut [usize],
    seconds: &mut [usize],
    signals: &mut [usize],
) -> Result<Size, Fault>
    ensures { ReadIs text.now firsts.old seconds.old signals.old
        (read_told result) firsts.new seconds.new signals.new }
{
    if 32768 < text.len() {
        return Err(Fault::LongText);
    }
    // by hand, for with `map_err(Fault::WrongTextLine)?` the proof did not close
    let stated = match form_of(text) {
        Ok(stated) => stated,
        Err(line) => return Err(Fault::WrongTextLine(line)),
    };
    check_size(stated.devices, stated.lines)?;
    let Stated {
        devices,
        lines,
        rows,
    } = stated;
    let mut a = [0usize; LINES];
    let mut b = [0usize; LINES];
    let mut s = [0usize; LINES];
    let a = &mut a[..lines];
    let b = &mut b[..lines];
    let s = &mut s[..lines];
    keep_rows(rows, a, b, s);
    check_plant(devices, a, b, s)?;
    if no_room(lines, firsts.len(), seconds.len(), signals.len()) {
        return Err(Fault::ShortList);
    }
    fill(firsts, a);
    fill(seconds, b);
    fill(signals, s);
    Ok(Size { devices, lines })
}
