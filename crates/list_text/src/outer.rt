// Outer records.
ghost use Rattle.std.specs.Prelude.{◌≡◌, ◌+◌, ◌<◌, length};
ghost use Rattle.tree_record.specs.Record.{u16_at};
ghost use Rattle.list_text.specs.Outer.{outer_at};

// What stands at a position: a whole record, or the front of one whose other bytes may still come, or one whose length is below 2.
#[derive(Clone, Copy)]
pub enum Outer {
    Whole {
        kind: usize,
        start: usize,
        end: usize,
    },
    Cut,
    Bad,
}

#[tactic(auto, unfolding(crate::specs::Outer::outer_at))]
pub fn outer_at(bytes: &[u8], at: usize) -> Outer
    ensures { result ≡ outer_at bytes.now at }
{
    let left = bytes.len().saturating_sub(at);
    if left < 2 {
        return Outer::Cut;
    }
    let size = number_at(bytes, at);
    if size < 2 {
        return Outer::Bad;
    }
    if left - 2 < size {
        return Outer::Cut;
    }
    let kind = number_at(bytes, at + 2);
    Outer::Whole {
        kind,
        start: at + 4,
        end: at + 2 + size,
    }
}

// The two-byte number at a position.
fn number_at(bytes: &[u8], at: usize) -> usize
    requires { at + 1 < length bytes.now }
    ensures value { result ≡ u16_at bytes.now at }
    ensures limit { result < 65536 }
{
    usize::from(u16::from_le_bytes([bytes[at], bytes[at + 1]]))
}
