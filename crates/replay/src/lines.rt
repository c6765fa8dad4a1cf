// The lines of the stored cases: a letter, then numbers or bytes, each after a single space. A line is bytes and no str, since one that is not so
// is told as it stands, whether it is text or not.
ghost use Rattle.std.specs.Prelude.{◌<◌, ◌≤◌, length, IfOk, IfSome, OnOk};

// A line of the text, and how many stand before it.
#[derive(Clone, Copy)]
pub(crate) struct Line<'a> {
    before: usize,
    pub(crate) bytes: &'a [u8],
}

// What is not so: a line, or that there is one.
#[derive(Clone, Copy)]
pub(crate) enum Mismatch<'a> {
    Line(Line<'a>),
    EndsEarly,
}

// What a number of a line is read as.
pub(crate) trait Entry: Copy {
    fn of(number: u32) -> Self;
}

impl Entry for u32 {
    fn of(number: u32) -> Self {
        number
    }
}

// A number that is no byte becomes 255, which no tick takes.
impl Entry for u8 {
    fn of(number: u32) -> Self {
        u8::try_from(number).unwrap_or(u8::MAX)
    }
}

impl<'a> Line<'a> {
    // Which line it is, from 1 on; an empty one goes by the number of the line before it.
    pub(crate) fn number(self) -> usize {
        self.before
            .saturating_add(usize::from(!self.bytes.is_empty()))
    }

    pub(crate) fn begins_with(self, letter: u8) -> bool {
        begins_with(self.bytes, letter)
    }

    // The line as what is not so, unless it is.
    pub(crate) fn check(self, so: bool) -> Result<(), Mismatch<'a>> {
        if so {
            Ok(())
        } else {
            Err(Mismatch::Line(self))
        }
    }

    // What stands after the letter, which must be this one.
    pub(crate) fn words(self, letter: u8) -> Result<Words<'a>, Mismatch<'a>> {
        self.check(self.begins_with(letter))?;
        Ok(Words {
            rest: self.bytes.get(1..).unwrap_or(&[]),
        })
    }

    // That the line has this letter, and its numbers are the first so many of these values and no others.
    pub(crate) fn holds<T: Into<u32> + Copy>(
        self,
        letter: u8,
        values: &[T],
        count: usize,
    ) -> Result<(), Mismatch<'a>> {
        let values = values.get(..count).ok_or(Mismatch::Line(self))?;
        let mut words = self.words(letter)?;
        for value in values {
            self.check(words.number() == Some((*value).into()))?;
        }
        self.check(words.rest.is_empty())
    }

    // Reads the line's numbers into a list, if it has this letter and exactly so many of them.
    pub(crate) fn read<T: Entry>(
        self,
        letter: u8,
        list: &mut [T],
        count: usize,
    ) -> Result<(), Mismatch<'a>>
        ensures { OnOk result (count ≤ length list.old) }
    {
        let places = list.get_mut(..count).ok_or(Mismatch::Line(self))?;
        let mut words = self.words(letter)?;
        for place in places {
            *place = T::of(words.number().ok_or(Mismatch::Line(self))?);
        }
        self.check(words.rest.is_empty())
    }

    // Puts the line's bytes behind those that are there, as far as there is room, and answers how many there are then. Whatever stands between
    // them is passed over, and so is what is left of the line.
    pub(crate) fn read_bytes(self, bytes: &mut [u8], size: usize) -> usize {
        let (words, _) = self.bytes.get(1..).unwrap_or(&[]).as_chunks::<3>();
        let mut size = size;
        for [_, high, low] in words {
            if let Some(place) = bytes.get_mut(size) {
                *place = 16 * hex_digit(*high) + hex_digit(*low);
                size += 1;
            }
        }
        size
    }
}

// A hexadecimal digit's number; 0 for any other letter.
fn hex_digit(letter: u8) -> u8
    ensures { result < 16 }
{
    match letter {
        b'0'..=b'9' => letter - b'0',
        b'A'..=b'F' => letter - b'A' + 10,
        _ => 0,
    }
}

// What is left of a line.
#[derive(Drop)]
pub(crate) struct Words<'a> {
    pub(crate) rest: &'a [u8],
}

impl Words<'_> {
    // The number that comes next, after a space. A space with no digit after it is no number.
    pub(crate) fn number(&mut self) -> Option<u32> {
        let (space, word) = self.rest.split_first()?;
        let end = word
            .iter()
            .position(|letter| !letter.is_ascii_digit())
            .unwrap_or(word.len());
        let (digits, rest) = word.split_at_checked(end)?;
        if *space != b' ' || digits.is_empty() {
            return None;
        }
        self.rest = rest;
        Some(value_of(digits))
    }
}

// The number of these digits.
fn value_of(digits: &[u8]) -> u32 {
    let mut value = 0;
    for digit in digits {
        value = with_digit(value, *digit);
    }
    value
}

// A number and one digit more, which is passed over where there are eight already.
fn with_digit(value: u32, digit: u8) -> u32 {
    if value < 10_000_000 {
        10 * value + u32::from(digit.saturating_sub(b'0'))
    } else {
        value
    }
}

// A number as a line may hold it; none of those compared is larger.
pub(crate) fn short(x: usize) -> u32 {
    u32::try_from(x).unwrap_or(u32::MAX).min(10_000_000)
}

pub(crate) fn begins_with(line: &[u8], letter: u8) -> bool {
    line.first() == Some(&letter)
}

// What is left of the text, and how many lines were read.
#[derive(Drop)]
pub(crate) struct Reader<'a> {
    rest: &'a [u8],
    read: usize,
}

impl<'a> Reader<'a> {
    pub(crate) fn new(text: &'a [u8]) -> Self {
        Reader {
            rest: text,
            read: 0,
        }
    }

    // The next line. Its number is its own, since no text has more lines than a usize counts.
    pub(crate) fn line(&mut self) -> Result<Line<'a>, Mismatch<'a>>
        ensures shorter { length self.new.rest.now ≤ length self.old.rest.now }
        ensures read { IfOk result (λ _. length self.new.rest.now < length self.old.rest.now) }
    {
        if self.rest.is_empty() {
            return Err(Mismatch::EndsEarly);
        }
        let line = Line {
            before: self.read,
            bytes: first_line(self.rest),
        };
        self.rest = self.rest.get(line.bytes.len() + 1..).unwrap_or(&[]);
        self.read = self.read.saturating_add(1);
        Ok(line)
    }

    // The next line if it has this letter.
    pub(crate) fn line_if(&mut self, letter: u8) -> Option<Line<'a>>
        ensures shorter { length self.new.rest.now ≤ length self.old.rest.now }
        ensures read { IfSome result (λ _. length self.new.rest.now < length self.old.rest.now) }
    {
        if begins_with(self.rest, letter) {
            self.line().ok()
        } else {
            None
        }
    }
}

// The text before its first line end, or all of it.
fn first_line(text: &[u8]) -> &[u8]
    ensures { length result.now ≤ length text.now }
{
    let end = text.iter().position(|letter| *letter == b'\n');
    end.and_then(|end| text.get(..end)).unwrap_or(text)
}
