// What is lent to building, and where it stands.
ghost use Rattle.builder_table.specs.Whole.{Whole};

use arena::Arena;
use arena_room::Room;

// Where building stands: the room in the arena, the ops made so far, and the input cells, past which the ops' wires follow. A builder by value.
#[derive(Clone, Copy)]
pub struct Standing {
    pub room: Room,
    pub ops: usize,
    pub cells: usize,
}

// An arena of terms, and a table of forms, whose slot k is nums[2k], nums[2k + 1] and biases[k]; the ops made so far, and the input cells, past which
// the ops' wires follow.
#[derive(Drop)]
pub struct Builder<'a> {
    pub arena: Arena<'a>,
    pub nums: &'a mut [usize],
    pub biases: &'a mut [f32],
    pub ops: usize,
    pub cells: usize,
    // The whole table.
    ghost whole: { Whole nums.now biases.now },
}
