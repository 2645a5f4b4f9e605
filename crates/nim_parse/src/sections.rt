use nim_base::Seq;

/// What the lines of a driver are, in their order. The statements stand in one list: a `loop`, `while` or `if`, its
/// `else` and its `end` are lines of their own.
#[derive(Debug, Drop)]
pub struct Sections {
    pub steps: Option<Steps>,
    pub vars: Seq<Var>,
    pub blocks: Seq<Block>,
    pub statements: Seq<Line>,
}

/// `steps MOST`. Lines count from 1, here and below.
#[derive(Clone, Copy, Debug, PartialEq, Eq)]
pub struct Steps {
    pub line: u32,
    pub most: u64,
}

/// `var NAME parts PARTS width WIDTH rows ROWS INIT`. A name is its bytes, here and below.
#[derive(Debug, Drop)]
pub struct Var {
    pub line: u32,
    pub name: Seq<u8>,
    pub parts: u64,
    pub width: u64,
    pub rows: u64,
    pub init: Init,
}

/// What stands in a variable at first: one number everywhere, each cell's own number, or data that
/// are loaded.
#[derive(Clone, Copy, Debug, PartialEq, Eq)]
pub enum Init {
    Fill(i64),
    Iota,
    Load,
}

/// `block NAME(ARGUMENTS)`, with the stages up to its `end`.
#[derive(Debug, Drop)]
pub struct Block {
    pub line: u32,
    pub name: Seq<u8>,
    pub arguments: Seq<Seq<u8>>,
    pub stages: Seq<Stage>,
}

/// `FUNCTION READS -> WRITES with PARAMETERS each i`.
#[derive(Debug, Drop)]
pub struct Stage {
    pub line: u32,
    pub function: Seq<u8>,
    pub reads: Seq<Ref>,
    pub writes: Seq<Ref>,
    pub parameters: Seq<Atom>,
    /// One task for each part of the first written variable.
    pub each: bool,
}

/// A part of a variable, `NAME[INDEX]`.
#[derive(Debug, Drop)]
pub struct Ref {
    pub name: Seq<u8>,
    pub index: Index,
}

/// A part's number: itself, `i`, `i + NUMBER` or `i - NUMBER`.
#[derive(Clone, Copy, Debug, PartialEq, Eq)]
pub enum Index {
    Part(u64),
    Own,
    After(u64),
    Before(u64),
}

/// A number with its sign, or a name: of an argument in a stage, of a scalar in a statement.
#[derive(Debug, Drop)]
pub enum Atom {
    Number(i64),
    Name(Seq<u8>),
}

/// A line among the statements.
#[derive(Debug, Drop)]
pub struct Line {
    pub line: u32,
    pub statement: Statement,
}

/// A statement, or the line at which one begins, goes on or ends.
#[derive(Debug, Drop)]
pub enum Statement {
    Do {
        block: Seq<u8>,
        arguments: Seq<Atom>,
    },
    Let {
        name: Seq<u8>,
        value: Expression,
    },
    Get {
        name: Seq<u8>,
        variable: Seq<u8>,
        part: u64,
        row: u64,
        column: u64,
    },
    Loop {
        turns: Atom,
    },
    While {
        condition: Condition,
    },
    If {
        condition: Condition,
    },
    Else,
    End,
    Checkpoint,
    Output {
        variable: Seq<u8>,
    },
}

/// What `let` puts into a scalar.
#[derive(Debug, Drop)]
pub enum Expression {
    Alone(Atom),
    Two {
        left: Atom,
        operator: Operator,
        right: Atom,
    },
}

/// `+`, `-`, `*`, `/` and `%`.
#[derive(Clone, Copy, Debug, PartialEq, Eq)]
pub enum Operator {
    Add,
    Subtract,
    Multiply,
    Divide,
    Remainder,
}

/// What `while` and `if` test.
#[derive(Debug, Drop)]
pub enum Condition {
    NotZero(Atom),
    Holds {
        left: Atom,
        relation: Relation,
        right: Atom,
    },
}

/// `<`, `<=`, `=`, `!=`, `>` and `>=`.
#[derive(Clone, Copy, Debug, PartialEq, Eq)]
pub enum Relation {
    Less,
    AtMost,
    Equal,
    NotEqual,
    Greater,
    AtLeast,
}
