// The check of a plant, document 01, "The plant" and "Refusal numbers" 1 to 8.
ghost use Rattle.std.specs.Prelude.{◌≡◌, ◌||◌, leb, ltb, eqb, length, ◌<◌};
ghost use Rattle.rules.specs.Refusals.{rises, lines_fault, plant_fault};
ghost use Rattle.rules.specs.Faults.{told};

use rules::{Fault, LINES, SIGNALS, check_devices};

// Whether an end of a line is not below n.
fn beyond(n: usize, a: usize, b: usize) -> bool
    ensures { result ≡ (leb n a || leb n b) }
{
    n <= a || n <= b
}

// Whether line i is above the one before, if there is one. The lists are those handed in, which may be no plant yet.
fn rising(firsts: &[usize], seconds: &[usize], i: usize) -> bool
    requires { (i < length firsts.now) × (length firsts.now ≡ length seconds.now) }
    ensures { result ≡ rises firsts.now seconds.now i }
{
    if i == 0 {
        return true;
    }
    let h = i - 1;
    firsts[h] < firsts[i] || firsts[h] == firsts[i] && seconds[h] < seconds[i]
}

// Whether the signals of a line are outside 1 to 65,535.
fn off_range(s: usize) -> bool
    ensures { result ≡ (eqb s 0 || ltb 65535 s) }
{
    s == 0 || SIGNALS < s
}

// The first faulty line: the loop is left from inside the rule that a line breaks, as document 01 has it ("Each place and its form").
fn check_lines(
    n: usize,
    firsts: &[usize],
    seconds: &[usize],
    signals: &[usize],
) -> Result<(), Fault>
    requires { (length firsts.now ≡ length seconds.now) × (length seconds.now ≡ length signals.now) }
    ensures { told result ≡ lines_fault n firsts.now seconds.now signals.now }
{
    let mut verdict = Ok(());
    'lines: for i in 0..firsts.len() {
        let a = firsts[i];
        let b = seconds[i];
        if beyond(n, a, b) {
            verdict = Err(Fault::EndNoDevice(i));
            break 'lines;
        }
        if b <= a {
            verdict = Err(Fault::EndsNotRising(i));
            break 'lines;
        }
        if !rising(firsts, seconds, i) {
            verdict = Err(Fault::LineNotRising(i));
            break 'lines;
        }
        if off_range(signals[i]) {
            verdict = Err(Fault::SignalsOffRange(i));
            break 'lines;
        }
    }
    verdict
}

// The first fault of a plant, if it has one.
// The plant comes as n and three lists, wrong ones too: document 01, "A plant is n with three lists of one length".
pub fn check_plant(
    n: usize,
    firsts: &[usize],
    seconds: &[usize],
    signals: &[usize],
) -> Result<(), Fault>
    ensures { told result ≡ plant_fault n firsts.now seconds.now signals.now }
{
    check_devices(n)?;
    let lines = firsts.len();
    if lines != seconds.len() || lines != signals.len() {
        return Err(Fault::UnevenLists);
    }
    if LINES < lines {
        return Err(Fault::ManyLines);
    }
    check_lines(n, firsts, seconds, signals)
}
