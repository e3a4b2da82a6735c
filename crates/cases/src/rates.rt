// Comparison and reduction of rates.
use crate::print::Answer;
use crate::row::Numbers;
use cut::rate::Rate;
use rules::Fault;
use std::cmp::Ordering;
use std::io;
use std::io::Write;

// The rate that a case has from a number on.
pub fn rate_at(numbers: &Numbers, from: usize) -> Rate {
    Rate {
        p: numbers.at(from),
        q: numbers.at(from.saturating_add(1)),
    }
}

// A rate that a call answers, 0/0 after a refusal.
pub fn told<W: Write>(answer: &mut Answer<W>, r: Result<Rate, Fault>) -> io::Result<()> {
    answer.refusal(&r)?;
    let rate = r.unwrap_or(Rate { p: 0, q: 0 });
    write!(answer, " rate={}/{}", rate.p, rate.q)
}

pub fn compare<W: Write>(answer: &mut Answer<W>, numbers: &Numbers) -> io::Result<()> {
    let r = rate_at(numbers, 0).compare(rate_at(numbers, 2));
    answer.refusal(&r)?;
    let order = match r {
        Ok(Ordering::Less) => 1,
        Ok(Ordering::Equal) => 2,
        Ok(Ordering::Greater) => 3,
        Err(_) => 0,
    };
    write!(answer, " order={order}")
}

pub fn reduce<W: Write>(answer: &mut Answer<W>, numbers: &Numbers) -> io::Result<()> {
    told(answer, rate_at(numbers, 0).reduce())
}
