//! Spans, and nodes with their places.
use crate::held::hold;
use crate::made::{displays, is_text, shows};
use std::alloc::Global;
use std::test::Fail;
use tera_report::{Span, Spanned};

fn span() -> Span {
    Span {
        start_line: 1,
        start_col: 0,
        end_line: 1,
        end_col: 4,
        range: 0..4,
    }
}

fn later() -> Span {
    Span {
        end_line: 7,
        end_col: 8,
        range: 5..9,
        ..Span::default()
    }
}

fn expanded() -> Span {
    let mut span = span();
    span.expand(&later());
    span
}

// It is its clone, and is not the other.
fn is_its_clone(span: Span, other: Span) -> bool {
    match span.clone().ok() {
        Some(copy) => copy == span && span != other,
        None => false,
    }
}

// Its debug text is that under options of the format too.
fn shows_anyhow(alloc: Global, span: &Span, wanted: &str) -> bool {
    is_text(format!(in alloc; "{span:#?}"), wanted)
        && is_text(format!(in alloc; "{span:40?}"), wanted)
}

#[test]
fn texts_of_spans(rt: HostRuntime) {
    let alloc = rt.alloc();
    hold!(
        &rt,
        [
            displays(alloc, &span(), " @ 1:0-1:4"),
            shows(alloc, &span(), " @ 1:0-1:4 (0..4)"),
            shows(alloc, &expanded(), " @ 1:0-7:8 (0..9)"),
            shows_anyhow(alloc, &expanded(), " @ 1:0-7:8 (0..9)"),
            shows(alloc, &Span::default(), " @ 0:0-0:0 (0..0)"),
            is_its_clone(expanded(), later()),
        ],
    );
}

type Node = Spanned<Option<u8>>;

// Its copy is the node, and is not the other.
fn is_its_copy(alloc: Global, node: &Node, other: &Node) -> bool {
    match node.clone(alloc).ok() {
        Some(copy) => copy == *node && copy != *other && *copy.node() == Some(7),
        None => false,
    }
}

// At another place it is no longer the other, and is so taken apart.
fn moves(node: Node, other: &Node) -> bool {
    let mut node = node;
    node.span_mut().end_col = 5;
    let is_moved = node != *other && node.span().end_col == 5;
    let (number, place) = node.into_parts();
    is_moved && number == Some(7) && place.end_col == 5
}

#[test]
fn nodes_with_places(rt: HostRuntime) -> Result<(), Fail> {
    let alloc = rt.alloc();
    let node = Spanned::new(alloc, Some(7u8), span())?;
    let moved = Spanned::new(alloc, Some(7u8), span())?;
    let other = Spanned::new(alloc, Some(8u8), span())?;
    hold!(
        &rt,
        [
            shows(alloc, &node, "Some(7) @ 1:0-1:4 (0..4)"),
            is_its_copy(alloc, &node, &other),
            moves(moved, &node),
        ],
    );
    Ok(())
}
