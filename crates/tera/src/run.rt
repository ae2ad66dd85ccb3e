//! The calls of values and contexts by name, and what runs them. They stand in `tera_context`; Tera
//! has no such calls.
pub use tera_context::{
    Answer, Call, Command, Known, Lent, Question, Request, Search, Step, Weighing, answer, lend,
    run, step,
};
pub use tera_scalars::BinaryOp;
pub use tera_values::IntType;
