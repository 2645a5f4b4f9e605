//! The tree of a driver, or the first line that a rule of the grammar refuses.
#![tactic(auto)]

mod cursor;
mod driver;
mod fault;
mod form;
mod lines;
mod lists;
mod nest;
mod parts;
mod rules;
mod sections;
mod state;
mod statements;
mod tree;

pub use driver::parse;
pub use fault::ParseFault;
pub use sections::{
    Atom, Block, Condition, Expression, Index, Init, Line, Operator, Ref, Relation, Sections,
    Stage, Statement, Steps, Var,
};
pub use tree::Tree;
