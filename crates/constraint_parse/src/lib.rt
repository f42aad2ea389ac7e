//! The constraint language of a request: the text of a query in, a constraint out, or the place where
//! the text first goes wrong. `specs/Language` has the texts as trees of tokens, and `specs/Values`
//! what each tree stands for; a text spells one constraint or has one fault.
#![tactic(auto)]

mod clauses;
mod constraint;
mod items;
mod laws;
mod numbers;
mod parser;
mod quoted;
mod refusal;
mod scan;

pub use constraint::{Clause, Constant, Constraint, Item, Number, Op, RawSlab, Step};
pub use laws::{one_constraint, one_fault, spelled_or_at_fault};
pub use parser::parse;
pub use refusal::ParseRefusal;
