// Text in a lent buffer: a part, or a number, put after what stands there, and a whole line. Inner: the first two ask for the room they need.
#![tactic(auto)]

ghost use Rattle.std.specs.Prelude.{◌≡◌, ◌+◌, ◌≤◌, length};
ghost use Rattle.text.specs.Text.{decimal, placed, Appended};

// Puts a line at the front of a buffer and answers the line's length. A buffer that is shorter than that stays as it was, and so do the bytes past
// the line.
pub fn put_line(buffer: &mut [u8], line: &[u8]) -> usize
    ensures { (result ≡ length line.now) × (buffer.new ≡ placed line.now buffer.old) }
{
    if line.len() <= buffer.len() {
        append(buffer, 0, line);
    }
    line.len()
}

// A number in decimal, at a position; the answer is the position after it.
pub fn append_decimal(line: &mut [u8], at: usize, number: u64) -> usize
    requires { at + 20 ≤ length line.old }
    ensures { Appended line.old at (decimal number) line.new result × (result ≤ at + 20) }
{
    let mut digits = [0u8; 20];
    let count = io::decimal(number, &mut digits);
    append(line, at, &digits[..count])
}

// Puts a part into a line at a position, and answers the position after it.
pub fn append(line: &mut [u8], at: usize, part: &[u8]) -> usize
    requires { at + length part.now ≤ length line.old }
    ensures { Appended line.old at part.now line.new result }
{
    let end = at + part.len();
    line[at..end].copy_from_slice(part);
    end
}
