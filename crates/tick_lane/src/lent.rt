// What a tick is lent: the state, which it advances, a room for the value table, and the outputs. Where a slice of it is lent on to be read, it is by a
// variable, `let flags = &mut *lane.flags;`: of one lent as `lane.flags` it would not be known that it stays as it is.
#[derive(Drop)]
pub struct Lane<'a> {
    pub flags: &'a mut [u8],
    pub cursors: &'a mut [u32],
    pub values: &'a mut [f32],
    pub statuses: &'a mut [u8],
    pub halts: &'a mut [u8],
    pub edges: &'a mut [u8],
}
