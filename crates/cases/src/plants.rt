// Plants in lists of their own: written out in a case, or made by a rule.
ghost use Rattle.std.specs.Prelude.{◌<◌};

use crate::row::{Numbers, front};
use rules::Fault;
use std::iter;
use text::Size;
use text::read::read_plant;

// A plant as the calls take it, wrong ones too: the devices, and the two ends and the signals of each line.
#[derive(Clone, Copy)]
pub struct Plant<'a> {
    pub devices: usize,
    pub firsts: &'a [usize],
    pub seconds: &'a [usize],
    pub signals: &'a [usize],
}

// A plant with room for N lines. Of each list as many entries count as `lengths` says, in the order of the lists: a case may state three
// lengths that differ.
#[derive(Clone, Copy)]
pub struct Lists<const N: usize> {
    pub devices: usize,
    pub lengths: [usize; 3],
    pub firsts: [usize; N],
    pub seconds: [usize; N],
    pub signals: [usize; N],
}

// The lists of a plant that is written out in a case.
pub type Short = Lists<16>;

// The lists of a plant made by a rule, with room for one line more than a plant may have.
pub type Large = Lists<1025>;

impl<const N: usize> Lists<N> {
    // No devices, and lists all of whose entries are a number. Inlined, so that the lists are not copied on the way back.
    #[inline(always)]
    pub fn filled(entry: usize) -> Self {
        Lists {
            devices: 0,
            lengths: [N; 3],
            firsts: [entry; N],
            seconds: [entry; N],
            signals: [entry; N],
        }
    }

    // Lines at the front of the lists, as many as there is room for, of so many devices. The lists are filled where they stand.
    fn put<I: Iterator<Item = Line> + Drop>(&mut self, devices: usize, lines: I)
        requires { I.can_next lines }
    {
        self.devices = devices;
        for (i, line) in lines.take(N).enumerate() {
            self.firsts[i] = line.a;
            self.seconds[i] = line.b;
            self.signals[i] = line.signals;
        }
    }

    // The plant that a case has from a number on: the devices, and then the two ends and the signals of each line.
    // Where the case ends before that number, all N lines count.
    pub fn written(numbers: &Numbers, from: usize) -> Self {
        let (rows, _) = numbers.tail(from.saturating_add(1)).as_chunks::<3>();
        let lines = rows.iter().map(|&[a, b, signals]| Line { a, b, signals });
        let mut lists = Lists::filled(0);
        lists.put(numbers.at(from), lines);
        lists.lengths = [numbers.count_from(from).map_or(N, |count| count / 3); 3];
        lists
    }

    // The plant that a case states from a number on: the reach and the devices of a rule, the lengths of the three lists, and the
    // signals of the first line. Whether they fall does not stand there in each kind of case.
    pub fn state(&mut self, numbers: &Numbers, from: usize, fall: usize)
        requires { from < 59 }
    {
        self.make(Rule {
            shape: Shape::from(numbers.at(from)),
            devices: numbers.at(from + 1),
            signals: numbers.at(from + 5),
            fall,
        });
        self.lengths = [
            numbers.at(from + 2),
            numbers.at(from + 3),
            numbers.at(from + 4),
        ];
    }

    // Lines by a rule until the lists are full, in rising order.
    pub fn make(&mut self, rule: Rule) {
        let first = Line {
            a: 0,
            b: 1,
            signals: rule.signals,
        };
        self.put(
            rule.devices,
            iter::successors(Some(first), |line| Some(rule.after(*line))),
        );
    }

    // Reads a plant text into the lists.
    pub fn read(&mut self, text: &[u8]) -> Result<Size, Fault> {
        let r = read_plant(text, &mut self.firsts, &mut self.seconds, &mut self.signals);
        let (devices, lines) = r.map_or((0, 0), |size| (size.devices, size.lines));
        self.devices = devices;
        self.lengths = [lines; 3];
        r
    }

    pub fn plant(&self) -> Plant<'_> {
        let [firsts, seconds, signals] = self.lengths;
        Plant {
            devices: self.devices,
            firsts: front(&self.firsts, firsts),
            seconds: front(&self.seconds, seconds),
            signals: front(&self.signals, signals),
        }
    }
}

// The two ends and the signals of a line.
#[derive(Clone, Copy)]
struct Line {
    a: usize,
    b: usize,
    signals: usize,
}

// To which devices a rule's lines go.
#[derive(Clone, Copy, Debug, PartialEq, Eq)]
pub enum Shape {
    // 0-1, 0 and the last device, 1-2, 2-3, and so on
    Ring,
    // from each device to those at most so many above it
    Band(usize),
}

// In a case a reach of 0 stands for the ring.
impl From<usize> for Shape {
    fn from(reach: usize) -> Self {
        match reach {
            0 => Shape::Ring,
            _ => Shape::Band(reach),
        }
    }
}

// A rule for the lines of a plant. The first one carries so many signals, and each next one less by `fall`, as long as some are left.
#[derive(Clone, Copy)]
pub struct Rule {
    pub shape: Shape,
    pub devices: usize,
    pub signals: usize,
    pub fall: usize,
}

impl Rule {
    // Lines on 128 devices that break no rule, one signal each.
    pub const FULL: Rule = Rule {
        shape: Shape::Band(9),
        devices: 128,
        signals: 1,
        fall: 0,
    };

    // The line after a line.
    fn after(self, line: Line) -> Line {
        let Line { a, b, signals } = line;
        let (a, b) = match self.shape {
            Shape::Ring if b == 1 => (0, self.devices.saturating_sub(1)),
            Shape::Band(reach) if b.saturating_sub(a) < reach && above(b) < self.devices => (
                a,
                above(b),
            ),
            _ => (above(a), above(above(a))),
        };
        let signals = if self.fall < signals {
            signals - self.fall
        } else {
            signals
        };
        Line { a, b, signals }
    }
}

// The device after a device.
fn above(device: usize) -> usize {
    device.saturating_add(1)
}
