//! Pages: a template and what its names stand for in, a text out.
//!
//! What a template shows is stated by `specs/Rendering.antt`, by cases on its tree. A value without
//! a safe flag brings no tag, and ends no quoted attribute: `laws` says so of every page.
#![tactic(auto)]

mod argument;
mod expression;
mod failure;
mod fault;
pub mod laws;
mod level;
mod page;
mod place;
mod refused;
mod scope;
mod set;
mod symbol;
mod syntax;
mod token;
mod tree;
mod value;
mod word;
mod written;

pub use page::{render, render_named};
pub use syntax::{parse, parse_named};
pub use tera_filters::Filter;
pub use tree::{
    Argument, Binary, Bound, Expression, Node, Operand, Place, Showing, Template, Unary, Written,
};
