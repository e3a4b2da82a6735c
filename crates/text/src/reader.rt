// Reading at a place of a text: a word, a number, a field, a row.
ghost use Rattle.std.specs.Prelude.{◌≡◌, IfSome, eqb, length, drop};
ghost use Rattle.text.specs.Numbers.{run, value_of, well_formed, number_of};
ghost use Rattle.text.specs.Lines.{begins, field, row};
ghost use Rattle.text.specs.Told.{told_number, told_word, told_row};

use std::marker::Model;

// A text and the place where it is read. A clause sees the bytes from the place on. Once a method has answered None, the place is of no
// further use.
#[derive(Drop)]
pub(crate) struct Reader<'a> {
    text: &'a [u8],
    at: usize,
}

impl<'a> Model for Reader<'a> {
    ghost use Rattle.std.specs.Prelude.{◌≤◌, ℕ, List, length, drop};

    ghost Value = { List ℕ };

    ghost view = { λ r. drop r.at r.text.now };

    ghost invariant = { λ r. r.at ≤ length r.text.now };
}

// The line that a row states.
#[derive(Clone, Copy)]
pub(crate) struct Line {
    pub first: usize,
    pub second: usize,
    pub signals: usize,
}

// The digits at the front, at most nine: what they state, and how many they are.
fn digits(l: &[u8]) -> (usize, usize)
    ensures { (result.0 ≡ value_of 0 (run 9 l.now)) × (result.1 ≡ length (run 9 l.now)) }
{
    let mut v: usize = 0;
    for (k, b) in l.iter().enumerate() {
        if k == 9 || !b.is_ascii_digit() {
            return (v, k);
        }
        v = 10 * v + (*b - b'0') as usize;
    }
    (v, l.len())
}

// Whether digits are a number: one digit, or more of which the first is not 0.
fn well_formed(digits: &[u8]) -> bool
    ensures { result ≡ well_formed digits.now }
{
    match digits {
        [] => false,
        [_] => true,
        [first, ..] => *first != b'0',
    }
}

impl<'a> Reader<'a> {
    // The reader of a text, at its start.
    pub(crate) fn new(text: &'a [u8]) -> Reader<'a>
        ensures { result ≡ text.entry.now }
    {
        Reader { text, at: 0 }
    }

    // A further reader at the same place. Clone is not derived: a clause does not see the text before the place.
    pub(crate) fn again(&self) -> Reader<'a>
        ensures { result ≡ self.now }
    {
        Reader {
            text: self.text,
            at: self.at,
        }
    }

    // The bytes from the place on.
    fn rest(&self) -> &'a [u8]
        ensures { result.now ≡ self.now }
    {
        &self.text[self.at..]
    }

    // Whether the place is the end of the text.
    pub(crate) fn at_end(&self) -> bool
        ensures { result ≡ eqb (length self.now) 0 }
    {
        self.at == self.text.len()
    }

    // Passes the word, with which the text should go on.
    pub(crate) fn word(&mut self, w: &[u8]) -> Option<()>
        ensures answer { result ≡ told_word (begins w.now self.old) }
        ensures moved { IfSome result (λ _. self.new ≡ drop (length w.now) self.old) }
    {
        if !self.rest().starts_with(w) {
            return None;
        }
        self.at += w.len();
        Some(())
    }

    // The number at the place.
    fn number(&mut self) -> Option<usize>
        ensures answer { result ≡ told_number (number_of self.old) }
        ensures moved { IfSome result (λ _. self.new ≡ drop (number_of self.old).used self.old) }
    {
        let rest = self.rest();
        let (v, count) = digits(rest);
        if !well_formed(&rest[..count]) {
            return None;
        }
        self.at += count;
        Some(v)
    }

    // The field at the place: a key, a number, and what ends it.
    pub(crate) fn field(&mut self, key: &[u8], stop: &[u8]) -> Option<usize>
        ensures answer { result ≡ told_number (field key.now stop.now self.old) }
        ensures moved { IfSome result (λ _. self.new ≡ drop (field key.now stop.now self.old).used self.old) }
    {
        self.word(key)?;
        let v = self.number()?;
        self.word(stop)?;
        Some(v)
    }

    // The row at the place.
    pub(crate) fn row(&mut self) -> Option<Line>
        ensures answer { result ≡ told_row (row self.old) }
        ensures moved { IfSome result (λ _. self.new ≡ drop (row self.old).used self.old) }
    {
        let first = self.field(b"line=", b",")?;
        let second = self.field(b"", b",")?;
        let signals = self.field(b"", b"\n")?;
        Some(Line {
            first,
            second,
            signals,
        })
    }
}
