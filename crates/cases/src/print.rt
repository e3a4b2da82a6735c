// The rows of the output: the case, its answer as key=value, and whether it is the expected one.
use rules::Fault;
use std::io::Write;
use std::{fmt, io};

// How many cases were run, and how many of them did not answer as expected.
#[derive(Clone, Copy, Default)]
pub struct Tally {
    cases: u64,
    wrong: u64,
}

impl Tally {
    // One more case.
    pub fn count(&mut self, right: bool) {
        self.cases = self.cases.wrapping_add(1);
        self.wrong = self.wrong.wrapping_add(u64::from(!right));
    }
}

impl fmt::Display for Tally {
    fn fmt<W: fmt::Write>(&self, f: &mut fmt::Formatter<W>) -> fmt::Result {
        write!(f, "cases={} wrong={}", self.cases, self.wrong)
    }
}

// The entries of a list, with a comma between two.
#[derive(Clone, Copy)]
pub struct Entries<'a, T>(pub &'a [T]);

impl<T: fmt::Display> fmt::Display for Entries<'_, T> {
    fn fmt<W: fmt::Write>(&self, f: &mut fmt::Formatter<W>) -> fmt::Result {
        for (i, x) in self.0.iter().enumerate() {
            if i != 0 {
                f.write_str(",")?;
            }
            x.fmt(f)?;
        }
        Ok(())
    }
}

// An answer that is being printed. What is written to it goes to `out`, and is held against the expected answer:
// `left` is what has still to come of that, and None once they differ.
#[derive(Drop)]
pub struct Answer<'a, W> {
    out: &'a mut W,
    expected: &'a [u8],
    left: Option<&'a [u8]>,
}

impl<W: Write> Write for Answer<'_, W> {
    fn write(&mut self, bytes: &[u8]) -> io::Result<usize> {
        let count = self.out.write(bytes)?;
        let written = &bytes[..count];
        self.left = match self.left {
            Some(left) if left.starts_with(written) => Some(&left[count..]),
            _ => None,
        };
        Ok(count)
    }

    fn flush(&mut self) -> io::Result<()> {
        self.out.flush()
    }
}

impl<'a, W: Write> Answer<'a, W> {
    // The answer to a case, which is printed before it.
    pub fn begin(out: &'a mut W, case: &[u8], expected: &'a [u8]) -> io::Result<Self> {
        out.write_all(b"case=")?;
        out.write_all(case)?;
        out.write_all(b": ")?;
        Ok(Answer {
            out,
            expected,
            left: Some(expected),
        })
    }

    // The number and the place, with which most answers begin: 0 and 0 of a call that is done.
    pub fn refusal<T>(&mut self, answered: &Result<T, Fault>) -> io::Result<()> {
        let (number, place) = match answered {
            Ok(_) => (0, 0),
            Err(fault) => (fault.number(), fault.place()),
        };
        write!(self, "number={number} place={place}")
    }

    // Bytes as they stand in a row: | for a newline.
    pub fn text(&mut self, bytes: &[u8]) -> io::Result<()> {
        for x in bytes {
            let shown = if *x == b'\n' { b'|' } else { *x };
            self.write_all(&[shown])?;
        }
        Ok(())
    }

    // A case whose first words are not known has no answer.
    pub fn unknown(&mut self) -> io::Result<()> {
        self.left = None;
        self.out.write_all(b"unknown")
    }

    // The end of a case's row, and whether the answer is the expected one.
    pub fn verdict(self) -> io::Result<bool> {
        let Answer {
            out,
            expected,
            left,
        } = self;
        if let Some([]) = left {
            out.write_all(b" ok\n")?;
            return Ok(true);
        }
        out.write_all(b" wrong, expected ")?;
        out.write_all(expected)?;
        out.write_all(b"\n")?;
        Ok(false)
    }
}
