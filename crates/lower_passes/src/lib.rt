// Where the passes of lowering stand beside the builder, what they answer, and a node's family: below the code that fills them and the laws about them.
#![tactic(auto)]

ghost use Rattle.std.specs.Prelude.{◌≡◌};
ghost use Rattle.walk.specs.Kind.{kind_of};
ghost use Rattle.construct.specs.Lower as Node;
ghost use Rattle.lower_passes.specs.Flat.{flat_of};

use wire::Form;

// The status that the stop does not advance on, running, and the next cursor.
#[derive(Clone, Copy)]
pub struct Picks {
    pub other: Form,
    pub run: Form,
    pub cursor: Form,
}

// The composite's bit of the status that it advances on, of the other finished status, of running; and its next cursor.
#[derive(Clone, Copy)]
pub struct Decision {
    pub advance: Form,
    pub other: Form,
    pub run: Form,
    pub cursor: Form,
}

// Where arbitrate stands: the statuses on the stack, the rows given to children, and the leaf slots and cursor cells still to be given.
#[derive(Clone, Copy)]
pub struct UpMark {
    pub depth: usize,
    pub row: usize,
    pub slot: usize,
    pub cell: usize,
}

// A node's family. A constant or a Force has its own status, where true stands for success; an ordered composite may have a cursor, and has the
// status that it advances on and its child count.
#[derive(Clone, Copy)]
pub enum Flat {
    Leaf,
    Fixed(bool),
    Invert,
    Force(bool),
    Ordered(bool, bool, usize),
}

impl Flat {
    // Of a kind's number, and the child count in the node's record. Kind 1 is a leaf, and kinds above 10 are never lowered.
    #[tactic(auto, unfolding(walk::specs::Kind::kind_of))]
    pub fn of(kind: u8, n: usize) -> Self
        ensures { flat_of result ≡ Node.flat_of (kind_of kind) n }
    {
        match kind {
            2 => Self::Fixed(true),
            3 => Self::Fixed(false),
            4 => Self::Ordered(true, true, n),
            5 => Self::Ordered(false, true, n),
            6 => Self::Ordered(true, false, n),
            7 => Self::Ordered(false, false, n),
            8 => Self::Invert,
            9 => Self::Force(true),
            10 => Self::Force(false),
            _ => Self::Leaf,
        }
    }
}

// Where reach stands: the entries on the stack, the rows of children still to come, and the cursor cells passed.
#[derive(Clone, Copy)]
pub struct DownMark {
    pub depth: usize,
    pub row: usize,
    pub cell: usize,
}
