//! The page of a template's text over names.
ghost use Rattle.std.specs.Prelude.{IfOk, IfErr};
ghost use Rattle.std.specs.String.{string_bytes};
ghost use Rattle.tera_render.specs.Page.{IsFaultOf, IsPage};

use crate::fault::{Fault, no_page};
use std::alloc::Global;
use tera::Context;
use tera_page::{parse_named, render_named};

/// The page of the template that the text of that name spells, over the names.
///
/// Refuses what is no template, and what has no page, with a report of the place.
pub(crate) fn page_of<'a>(
    alloc: Global,
    name: &'a str,
    text: &str,
    names: &Context,
) -> Result<String, Fault<'a>>
    ensures ok { IfOk result (λ page. IsPage text.now names.now (string_bytes page)) }
    ensures err { IfErr result (IsFaultOf name.now text.now names.now) }
{
    let template = match parse_named(alloc, name, text) {
        Ok(template) => template,
        Err(error) => return Err(no_page(error)),
    };
    match render_named(alloc, name, text, &template, names) {
        Ok(page) => Ok(page),
        Err(error) => Err(no_page(error)),
    }
}
