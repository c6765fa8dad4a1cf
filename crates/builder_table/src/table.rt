// The map of the table of forms.

// The map of the table: rows of 128 slots, each for one sort of form, then the ops.
#[derive(Clone, Copy)]
pub struct Table {}

impl Table {
    // The status a node would return, by node.
    pub const RAW_SUCCESS: usize = 0;

    pub const RAW_FAILURE: usize = 128;

    pub const RAW_RUNNING: usize = 256;

    // The stack of statuses of arbitrate.
    pub const STACK_SUCCESS: usize = 384;

    pub const STACK_FAILURE: usize = 512;

    pub const STACK_RUNNING: usize = 640;

    // The five bits of lower_ordered: before, blocked, clear and stop by the child's position, reach and after_stop by the row that the child is given.
    pub const BEFORE: usize = 768;

    pub const BLOCKED: usize = 896;

    pub const CLEAR: usize = 1024;

    pub const STOPS: usize = 1152;

    pub const REACH: usize = 1280;

    pub const AFTER_STOP: usize = 1408;

    // The next cursor that a composite's arbitration decided, by node; the one to be stored, by cursor cell.
    pub const ARBITRATED: usize = 1536;

    pub const NEXT_CURSOR: usize = 1664;

    // By node.
    pub const REACHED: usize = 1792;

    pub const HALTED: usize = 1920;

    pub const UNTOUCHED: usize = 2048;

    pub const NEXT_RUNNING: usize = 2176;

    // The stack of entries of reach: whether a node is reached, and whether a halt is called on it.
    pub const ENTRY_REACHED: usize = 2304;

    pub const ENTRY_CALLED: usize = 2432;

    // The ops: op k has two slots, its left form and its gate.
    pub const OPS: usize = 2560;

    pub const OPS_MOST: usize = 2200;
}
