// What a run carries from record to record.

// What lasts from tick to tick, and the value table, which has room for any circuit's.
#[derive(Drop)]
pub struct State<'a> {
    pub flags: &'a mut [u8],
    pub cursors: &'a mut [u32],
    pub values: &'a mut [f32],
}

// What follows a record.
#[derive(Clone, Copy)]
pub(crate) enum Next {
    Goes,
    Waits,
    Ended,
}
