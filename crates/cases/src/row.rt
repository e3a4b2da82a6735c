// The rows of a case table. Of a case only its first words and its numbers count, in their order: "check 3 devices, 0-1: 3, 1-2: 2".
ghost use Rattle.std.specs.Prelude.{◌<◌};

// A case: its text, and the numbers in it.
#[derive(Clone, Copy)]
pub struct Case<'a> {
    pub text: &'a [u8],
    pub numbers: Numbers,
}

impl<'a> Case<'a> {
    pub fn new(text: &'a [u8]) -> Self {
        Case {
            text,
            numbers: Numbers::of(text),
        }
    }
}

// The first 64 numbers of a text, in their order, and 0 after them. A count stands beside the list, and no Vec in their place: a case may
// be read past its last number.
#[derive(Clone, Copy)]
pub struct Numbers {
    count: usize,
    list: [usize; 64],
}

impl Numbers {
    // The numbers of a text.
    fn of(text: &[u8]) -> Self {
        let mut reader = Reader {
            numbers: Numbers {
                count: 0,
                list: [0; 64],
            },
            state: State::Between,
        };
        for byte in text {
            reader.read(*byte);
        }
        reader.end(State::Between);
        reader.numbers
    }

    // Number i, and 0 past the last one.
    pub fn at(&self, i: usize) -> usize {
        self.list.get(i).copied().unwrap_or(0)
    }

    // The numbers from one on, and the 0 after them.
    pub fn tail(&self, from: usize) -> &[usize] {
        self.list.get(from..).unwrap_or(&[])
    }

    // How many numbers there are from one on; None where there are fewer before it.
    pub fn count_from(&self, from: usize) -> Option<usize> {
        self.count.checked_sub(from)
    }
}

// Whether a text that is being read stands between its words and numbers, in a word, or in a number, with its value so far.
#[derive(Clone, Copy)]
enum State {
    Between,
    InWord,
    InNumber(usize),
}

// The numbers of a text as far as it is read.
#[derive(Clone, Copy)]
struct Reader {
    numbers: Numbers,
    state: State,
}

impl Reader {
    // One more byte. A digit in a word, as in K2, is no number; every byte from A on is taken for a letter.
    fn read(&mut self, byte: u8) {
        match (byte, self.state) {
            (b'0'..=b'9', State::InWord) => {}
            (b'0'..=b'9', State::Between) => self.state = State::InNumber(longer(0, byte - b'0')),
            (b'0'..=b'9', State::InNumber(value)) => {
                self.state = State::InNumber(longer(value, byte - b'0'));
            }
            _ if byte < b'A' => self.end(State::Between),
            _ => self.end(State::InWord),
        }
    }

    // The number that is being read is complete, if there is one.
    fn end(&mut self, next: State) {
        let numbers = &mut self.numbers;
        if let State::InNumber(value) = self.state
            && numbers.count < 64
        {
            numbers.list[numbers.count] = value;
            numbers.count += 1;
        }
        self.state = next;
    }
}

// A number with one more digit; it takes no more than ten.
fn longer(value: usize, digit: u8) -> usize {
    if value < 1000000000 {
        value * 10 + usize::from(digit)
    } else {
        value
    }
}

// What stands in a row before its semicolon, and after that and one more byte.
pub fn parts(row: &[u8]) -> (&[u8], &[u8]) {
    let end = row.iter().position(|x| *x == b';').unwrap_or(row.len());
    (front(row, end), rest(row, end.saturating_add(2)))
}

// The first k entries of a list.
pub fn front<T>(list: &[T], k: usize) -> &[T] {
    &list[..k.min(list.len())]
}

// The entries of a list after the first k.
pub fn rest<T>(list: &[T], k: usize) -> &[T] {
    &list[k.min(list.len())..]
}
