// The rules of document 01 as definitions (specs/) and the laws proved of them (proofs/), which the crates above cite; and what an input is
// refused for.
#![tactic(auto)]

ghost use Rattle.std.specs.Prelude.{◌≡◌};
ghost use Rattle.rules.specs.Refusals.{devices_fault};
ghost use Rattle.rules.specs.Faults.{refusal_of, told};

// "devices n: 1 to 128"
pub const DEVICES: usize = 128;

// "lines: 0 to 1,024"
pub const LINES: usize = 1024;

// "signals on a line: 1 to 65,535"
pub const SIGNALS: usize = 65535;

// A fault of "Refusal numbers". One that stands at a line or a text line says at which.
#[derive(Clone, Copy, Debug, PartialEq, Eq)]
pub enum Fault {
    NoDevices,
    ManyDevices,
    UnevenLists,
    ManyLines,
    EndNoDevice(usize),
    EndsNotRising(usize),
    LineNotRising(usize),
    SignalsOffRange(usize),
    RateOffRange,
    NoSuchDevice,
    SameDevice,
    ShortList,
    NeverJoin,
    LongText,
    WrongTextLine(usize),
    NoSuchLevel,
}

impl Fault {
    // Its number in "Refusal numbers".
    pub fn number(self) -> usize
        ensures { result ≡ (refusal_of self).number }
    {
        match self {
            Fault::NoDevices => 1,
            Fault::ManyDevices => 2,
            Fault::UnevenLists => 3,
            Fault::ManyLines => 4,
            Fault::EndNoDevice(_) => 5,
            Fault::EndsNotRising(_) => 6,
            Fault::LineNotRising(_) => 7,
            Fault::SignalsOffRange(_) => 8,
            Fault::RateOffRange => 9,
            Fault::NoSuchDevice => 10,
            Fault::SameDevice => 11,
            Fault::ShortList => 12,
            Fault::NeverJoin => 13,
            Fault::LongText => 14,
            Fault::WrongTextLine(_) => 15,
            Fault::NoSuchLevel => 16,
        }
    }

    // Its place: a line from 0, a text line from 1, and 0 of every other fault.
    pub fn place(self) -> usize
        ensures { result ≡ (refusal_of self).place }
    {
        match self {
            Fault::EndNoDevice(line) => line,
            Fault::EndsNotRising(line) => line,
            Fault::LineNotRising(line) => line,
            Fault::SignalsOffRange(line) => line,
            Fault::WrongTextLine(line) => line,
            _ => 0,
        }
    }
}

// The fault of a number of devices, if it has one.
pub fn check_devices(n: usize) -> Result<(), Fault>
    ensures { told result ≡ devices_fault n }
{
    if n == 0 {
        return Err(Fault::NoDevices);
    }
    let many = DEVICES < n;
    if many {
        return Err(Fault::ManyDevices);
    }
    Ok(())
}
