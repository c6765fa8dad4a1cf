// The listing program's buffer: bytes that are not read yet move to its front; and what the end of the input prints.
#![tactic(auto)]

ghost use Rattle.std.specs.Prelude.{◌≡◌, length};
ghost use Rattle.text.specs.Text.{placed};
ghost use Rattle.list_ends.specs.Ends.{last_line, unread};

use list_text::write_bad;

// Prints what the end of the input asks for where so many bytes are left: nothing, or that the record which they begin is bad.
#[tactic(auto, unfolding(crate::specs::Ends::last_line))]
pub fn finish(left: usize, out: &mut [u8]) -> usize
    ensures value { result ≡ length (last_line left) }
    ensures out_after { out.new ≡ placed (last_line left) out.old }
{
    if left == 0 {
        return 0;
    }
    write_bad(out)
}

// Moves the bytes between two positions to the front and answers how many they are. The bytes past them stay as they were. Where the second
// position lies past the end nothing is moved.
pub fn move_down(buffer: &mut [u8], from: usize, have: usize) -> usize
    ensures value { result ≡ length (unread buffer.old from have) }
    ensures buffer_after { buffer.new ≡ placed (unread buffer.old from have) buffer.old }
{
    if buffer.len() < have || have < from {
        return 0;
    }
    buffer.copy_within(from..have, 0);
    have - from
}
