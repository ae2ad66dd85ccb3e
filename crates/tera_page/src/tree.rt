//! Templates as trees.
ghost use Rattle.std.specs.Prelude.{◌≡◌};
ghost use Rattle.tera_page.specs.View.{parts_of, tree_of};

use tera::Value;
use tera::scalars::BinaryOp;
use tera_filters::Filter;

/// Where a value is found: at a name, or by a path from there.
#[derive(Clone, Copy, Debug, PartialEq, Eq)]
pub struct Place<'a> {
    pub name: &'a str,
    pub to: Option<&'a str>,
}

/// What stands alone.
#[derive(Debug, Drop)]
pub enum Operand<'a> {
    /// A value itself.
    Constant(Value),
    /// What is found at a place, or undefined.
    Found(Place<'a>),
}

/// A named argument of a filter.
#[derive(Debug, Drop)]
pub struct Argument<'a> {
    pub name: &'a str,
    pub value: Operand<'a>,
}

/// What is made of one value.
#[derive(Clone, Copy, Debug, PartialEq, Eq)]
pub enum Unary {
    /// `not`: whether it does not count as true.
    Not,
    /// `-`: the number with the other sign.
    Minus,
    /// `is defined`: whether it is not undefined.
    IsDefined,
}

/// What is made of two values.
#[derive(Clone, Copy, Debug, PartialEq, Eq)]
pub enum Binary {
    /// `or`: whether one of them counts as true.
    Or,
    /// `and`: whether both do.
    And,
    /// `in`: whether the second holds the first.
    In,
    /// `not in`.
    NotIn,
    /// `==`, of their meanings.
    Equal,
    /// `!=`.
    Unequal,
    /// `<`, which holds only inside a rank: of two numbers, of two texts, and so on.
    Less,
    /// `<=`.
    AtMost,
    /// `>`.
    More,
    /// `>=`.
    AtLeast,
    /// `+`, `-`, `*`, `//`, `%` or `**`.
    Arithmetic(BinaryOp),
}

/// What a value is written by.
#[derive(Debug, Drop)]
pub enum Expression<'a> {
    /// What stands alone.
    Operand(Operand<'a>),
    /// What is made of one value.
    One(Unary, Box<Expression<'a>>),
    /// What is made of two.
    Two(Binary, Box<Expression<'a>>, Box<Expression<'a>>),
    /// What a filter makes of a value and of arguments. Of two of one name the last counts.
    Piped(Filter, Box<Expression<'a>>, Vec<Argument<'a>>),
}

/// An expression, and where it is written.
#[derive(Debug, Drop)]
pub struct Written<'a> {
    /// The text that it is written in.
    pub text: &'a str,
    /// The template from the tag around it on, for what is told where it is refused.
    pub from: &'a str,
    /// What it is made of.
    pub expression: Expression<'a>,
}

/// How a value is shown.
#[derive(Clone, Copy, Debug, PartialEq, Eq)]
pub enum Showing {
    /// As a page shows it: escaped unless it is safe.
    InPage,
    /// As it prints.
    AsPrinted,
}

/// What a loop binds.
#[derive(Clone, Copy, Debug, PartialEq, Eq)]
pub enum Bound<'a> {
    /// A name for each item of an array.
    Item(&'a str),
    /// Two names for each pair of a map: its key's, and its value's, which hides a key's.
    Pair(&'a str, &'a str),
}

/// A part of a template.
#[derive(Debug, Drop)]
pub enum Node<'a> {
    /// A text that stands in the page as it is.
    Text(&'a str),
    /// A comment, of which the page has nothing.
    Comment(&'a str),
    /// A value that is shown.
    Show {
        written: Written<'a>,
        how: Showing,
    },
    /// A name that is set to a value, up to the end of the turn around it, or of the template.
    Set {
        name: &'a str,
        written: Written<'a>,
    },
    /// What is taken where a value is true, and where it is not.
    If {
        test: Written<'a>,
        then: Vec<Node<'a>>,
        otherwise: Vec<Node<'a>>,
    },
    /// What is repeated for each item or pair, and what is taken where there is none.
    For {
        bound: Bound<'a>,
        over: Written<'a>,
        body: Vec<Node<'a>>,
        otherwise: Vec<Node<'a>>,
    },
}

/// A template: its parts, in their order.
#[derive(Debug, Drop)]
pub struct Template<'a> {
    nodes: Vec<Node<'a>>,
}

impl<'a> Template<'a> {
    /// A template of these parts. Takes no memory.
    pub fn new(nodes: Vec<Node<'a>>) -> Template<'a>
        ensures { tree_of result ≡ parts_of nodes.entry.items }
    {
        Template { nodes }
    }

    /// Its parts, lent. Takes no memory.
    pub fn nodes(&self) -> &[Node<'a>]
        ensures { parts_of result.now ≡ tree_of self.now }
    {
        self.nodes.as_slice()
    }
}
