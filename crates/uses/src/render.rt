//! A small renderer: texts and values one after another, as a page shows them.
ghost use Rattle.std.specs.Prelude.{◌≡◌, ◌++◌, ℕ, List, IfOk, IfErr, OnOk};
ghost use Rattle.std.specs.List.{AllByRecursion, flat_map};
ghost use Rattle.std.specs.Option.{option_copied, option_map};
ghost use Rattle.std.specs.String.{string_bytes};
ghost use Rattle.tera.specs.Errors.{IsOutOfMemory};
ghost use Rattle.tera.specs.Growing.{grown_bytes};
ghost use Rattle.tera.specs.InTurn.{ShownInTurn};
ghost use Rattle.uses.specs.Render.{IsExactPiece, ShowsPiece, found, shown_by};

use std::alloc::Global;
use tera::laws::shown::pages_show_values;
use tera::sink::{Growing, Sink};
use tera::{Context, TeraResult, Value, show_in_page};

/// A piece of a page.
#[derive(Debug, Drop)]
pub enum Piece {
    /// A text that stands in the page as it is.
    Text(String),
    /// The value of a name, or what a path leads to from there.
    Path { name: String, path: Option<String> },
}

/// The page of these pieces, one after another: a text as it is, and a value as it prints, escaped
/// unless it is safe. Where nothing is found, nothing is shown. The bytes are known where each
/// value that is found has one printed text.
///
/// Takes memory for the page; the only refusal is want of it, `Out of memory`.
pub fn render_pieces(alloc: Global, context: &Context, pieces: &[Piece]) -> TeraResult<String>
    ensures ok { IfOk result (λ page.
        ShownInTurn (ShowsPiece context.now) pieces.now (string_bytes page)) }
    ensures known { AllByRecursion (IsExactPiece context.now) pieces.now → IfOk result
        (λ page. string_bytes page ≡ flat_map (shown_by context.now) pieces.now) }
    ensures err { IfErr result IsOutOfMemory }
{
    pages_show_values();
    let mut page = Growing::new(alloc);
    for piece in pieces {
        put_piece(context, piece, &mut page)?;
    }
    Ok(page.into_text())
}

// Puts what a piece shows.
fn put_piece(context: &Context, piece: &Piece, page: &mut Growing) -> TeraResult<()>
    ensures ok { OnOk result ((shown : List ℕ) × ShowsPiece context.now piece.now shown
        × (grown_bytes page.new ≡ grown_bytes page.old ++ shown)) }
    ensures err { IfErr result IsOutOfMemory }
{
    match piece {
        Piece::Text(text) => page.put(text.as_str())?,
        Piece::Path { name, path } => {
            if let Some(value) = found(context, name.as_str(), path) {
                show_in_page(value, page)?;
            }
        }
    }
    Ok(())
}

// What is found at a name, or by a path from there.
fn found<'a>(context: &'a Context, name: &'a str, path: &'a Option<String>) -> Option<&'a Value>
    ensures { option_copied result
        ≡ found context.now name.now (option_map string_bytes path.now) }
{
    let value = context.get(name)?;
    match path {
        Some(path) => value.get_from_path(path.as_str()),
        None => Some(value),
    }
}
