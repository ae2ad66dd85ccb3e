//! Contexts, and the calls that run over them.
#![tactic(auto)]

mod ask;
mod by_name;
mod call;
mod compute;
mod context;
mod debug;
mod entries;
mod find;
mod known;
mod lent;
mod owned;
mod request;
mod steps;
mod weigh;

pub use call::{Answer, Call, Step};
pub use context::Context;
pub use known::Known;
pub use lent::{Lent, lend};
pub use request::{Command, Question, Request, Search, Weighing};
pub use steps::{answer, run, step};
pub use tera_conversions::{FunctionResult, ToKey, ToValue};
pub use tera_scalars::BinaryOp;
pub use tera_values::IntType;
