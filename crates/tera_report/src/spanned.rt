//! A node with its place in the source.
ghost use Rattle.std.specs.Prelude.{◌≡◌, ◌↔◌, Some, IfOk, IfErr, IsTrue};
ghost use Rattle.std.specs.Borrow.{sem, Lends};
ghost use Rattle.std.specs.Fmt.{◌++?◌};
ghost use Rattle.tera_report.specs.Errors.{IsOutOfMemory};
ghost use Rattle.tera_report.specs.Span.{span_debug_text};
ghost use Rattle.tera_report.specs.Spanned.{node_of, span_of, placed_at};
ghost use Rattle.tera_report.specs.declared.spanned.Spanned.{Spanned};
ghost use Rattle.tera_report.specs.contracts.span.Span.{the_row as span-row};
ghost use Rattle.tera_report.specs.contracts.spanned.Spanned.{the_row};

use crate::errors::TeraResult;
use crate::span::Span;
use std::alloc::Global;
use std::fmt;
use std::fmt::Debug;

/// A node with its place in the source. Mirrors `tera::Spanned`, whose `Deref` `node` stands for.
#[derive(PartialEq, Drop)]
pub struct Spanned<T: Debug> {
    node: Box<T>,
    span: Span,
}

impl<T: Debug> Spanned<T> {
    /// The node at that place. `Out of memory` where it finds none; the node is then dropped.
    /// Mirrors `Spanned::new`.
    pub fn new(alloc: Global, node: T, span: Span) -> TeraResult<Spanned<T>>
    where
        T: Drop,
        ensures node { IfOk result (λ made. node_of made ≡ node) }
        ensures span { IfOk result (λ made. span_of made ≡ span) }
        ensures err { IfErr result IsOutOfMemory }
    {
        Ok(Spanned {
            node: Box::new(alloc, node)?,
            span,
        })
    }

    /// The node, lent. Takes no memory. Mirrors `Spanned::node`.
    pub fn node(&self) -> &T
        ensures { result.now ≡ node_of self.now }
    {
        &self.node
    }

    /// The place, lent. Takes no memory. Mirrors `Spanned::span`.
    pub fn span(&self) -> &Span
        ensures { result.now ≡ span_of self.now }
    {
        &self.span
    }

    /// The place, lent to be changed; the node stays. Takes no memory. Mirrors
    /// `Spanned::span_mut`.
    pub fn span_mut(&mut self) -> &mut Span
        ensures value { result.now ≡ span_of self.old }
        ensures* writes_back { sem 𝓛
            (Lends (the_row T.row) span-row self.entry result (placed_at self.old)) }
    {
        &mut self.span
    }

    /// The node and its place. Takes no memory. Mirrors `Spanned::into_parts`.
    pub fn into_parts(self) -> (T, Span)
        ensures node { result.0 ≡ node_of self }
        ensures span { result.1 ≡ span_of self }
    {
        let Spanned { node, span } = self;
        (Box::into_inner(node), span)
    }

    /// A clone of the node at the same place. `Out of memory` where it finds none. Stands for
    /// `clone` of Rust's `Clone`.
    pub fn clone(&self, alloc: Global) -> TeraResult<Spanned<T>>
    where
        T: Clone,
        ensures node { IfOk result (λ copy. T.is_clone (node_of self.now) (node_of copy)) }
        ensures span { IfOk result (λ copy. span_of copy ≡ span_of self.now) }
        ensures err { IfErr result IsOutOfMemory }
    {
        let node = T::clone(&self.node)?;
        let span = self.span.copy();
        Spanned::new(alloc, node, span)
    }
}

/// Two nodes with places are `==` exactly where the nodes are and the places are the same.
pub fn spanned_equal_by_parts<T: Debug + PartialEq>()
    ensures { (a b : Spanned T) → IsTrue (⟦<Spanned<T> as PartialEq>⟧.eq a b)
        ↔ (IsTrue (T.eq (node_of a) (node_of b)) × (span_of a ≡ span_of b)) }
{}

/// The debug form of the node, and then that of the place.
impl<T: Debug> Debug for Spanned<T> {
    ghost debug_output = { λ spanned.
        T.debug_output (node_of spanned) ++? Some (span_debug_text (span_of spanned)) };

    fn fmt<W: fmt::Write>(&self, f: &mut fmt::Formatter<W>) -> fmt::Result {
        write!(f, "{:?}{:?}", self.node, self.span)
    }
}
