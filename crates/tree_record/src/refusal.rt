// The refusals of compiling, and document 01's number and kind of each.
ghost use Rattle.std.specs.Prelude.{◌≡◌};
ghost use Rattle.tree_record.specs.Refusal.{number_of, kind_of};

// Why a tree is refused. Unsupported carries the kind.
#[derive(Clone, Copy)]
pub enum Cause {
    Truncated,
    BadLength,
    BadKind,
    Unsupported(u8),
    EmptyComposite,
    TooDeep,
    TooManyNodes,
    Trailing,
    NoOpRoom,
    NoTermRoom,
    ShortRoom,
}

impl Cause {
    pub fn number(self) -> u8
        ensures { result ≡ number_of self }
    {
        match self {
            Cause::Truncated => 1,
            Cause::BadLength => 2,
            Cause::BadKind => 3,
            Cause::Unsupported(_) => 4,
            Cause::EmptyComposite => 5,
            Cause::TooDeep => 6,
            Cause::TooManyNodes => 7,
            Cause::Trailing => 8,
            Cause::NoOpRoom => 9,
            Cause::NoTermRoom => 10,
            Cause::ShortRoom => 14,
        }
    }

    // The kind that 4 carries, and 0 beside any other number.
    pub fn kind(self) -> u8
        ensures { result ≡ kind_of self }
    {
        match self {
            Cause::Unsupported(kind) => kind,
            _ => 0,
        }
    }
}

// A refusal: why, and at which place.
#[derive(Clone, Copy)]
pub struct Refusal {
    pub cause: Cause,
    pub place: usize,
}
