use nim_base::Seq;
use sqlite_items::Items;

/// A number, or a scalar by number.
#[derive(Clone, Copy, Debug, PartialEq, Eq)]
pub enum Atom {
    Const(i64),
    Scalar(u8),
}

/// How a condition compares its two atoms.
#[derive(Clone, Copy, Debug, PartialEq, Eq)]
pub enum Cmp {
    Less,
    AtMost,
    Equal,
    Differs,
    Greater,
    AtLeast,
}

/// What a `let` does with its two atoms; a result that 64 bits can't hold wraps, and a division by 0 gives 0.
#[derive(Clone, Copy, Debug, PartialEq, Eq)]
pub enum Arith {
    Plus,
    Minus,
    Times,
    Divide,
    Remainder,
}

/// A condition. One that is a single atom is that atom beside `Differs` and 0.
#[derive(Clone, Copy, Debug, PartialEq, Eq)]
pub struct Cond {
    pub left: Atom,
    pub cmp: Cmp,
    pub right: Atom,
}

/// A statement. `second` of an `If` is empty where there is no `else`.
#[derive(Debug, Drop)]
pub enum Stmt {
    Do {
        block: u8,
        args: Seq<Atom>,
    },
    Let {
        scalar: u8,
        first: Atom,
        rest: Option<(Arith, Atom)>,
    },
    Get {
        scalar: u8,
        var: u8,
        part: u64,
        row: u64,
        cell: u64,
    },
    Loop {
        turns: Atom,
        body: Items<Stmt>,
    },
    While {
        cond: Cond,
        body: Items<Stmt>,
    },
    If {
        cond: Cond,
        first: Items<Stmt>,
        second: Items<Stmt>,
    },
    Checkpoint,
    Output {
        var: u8,
    },
}
