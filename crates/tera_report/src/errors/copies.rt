//! Copies of kinds, with texts of their own.
ghost use Rattle.std.specs.Prelude.{◌≡◌, [], IfOk, IfErr, IsOk, map, string_bytes};
ghost use Rattle.tera_report.specs.Errors.{HoldsNoText, refusal_of, report_of, IsOutOfMemory};
ghost use Rattle.tera_report.specs.Refusal.{circular_extend, circular_include};

use super::{ErrorKind, TeraResult};
use crate::report::ReportError;
use crate::words::text_of;
use std::alloc::{AllocError, Global};

impl ErrorKind {
    /// The same kind with texts of its own. `Out of memory` where they find none; a kind that holds
    /// none but empty ones takes none. Stands for `clone` of Rust's `Clone`.
    pub fn clone(&self, alloc: Global) -> TeraResult<ErrorKind>
        ensures ok { IfOk result (λ copy. refusal_of copy ≡ refusal_of self.now) }
        ensures err { IfErr result IsOutOfMemory }
        ensures succeeds { HoldsNoText self.now → IsOk result }
    {
        Ok(match self {
            Self::Msg(message) => Self::Msg(text_of(alloc, message)?),
            Self::SyntaxError(report) => Self::SyntaxError(copied_report(alloc, report)?),
            Self::RenderingError(report) => Self::RenderingError(copied_report(alloc, report)?),
            Self::CircularExtend {
                tpl,
                inheritance_chain,
            } => extended(alloc, tpl, inheritance_chain)?,
            Self::CircularInclude { tpl, include_chain } => included(alloc, tpl, include_chain)?,
            Self::MissingParent { current, parent } => Self::MissingParent {
                current: text_of(alloc, current)?,
                parent: text_of(alloc, parent)?,
            },
            Self::TemplateNotFound(name) => Self::TemplateNotFound(text_of(alloc, name)?),
            Self::ComponentNotFound(name) => Self::ComponentNotFound(text_of(alloc, name)?),
            Self::InvalidArgument {
                expected_type,
                actual_type,
            } => Self::InvalidArgument {
                expected_type: text_of(alloc, expected_type)?,
                actual_type: text_of(alloc, actual_type)?,
            },
            Self::MissingArgument { arg_name } => Self::MissingArgument {
                arg_name: text_of(alloc, arg_name)?,
            },
            Self::OutOfRangeArgument { value, target_type } => Self::OutOfRangeArgument {
                value: text_of(alloc, value)?,
                target_type: text_of(alloc, target_type)?,
            },
            Self::Io(kind) => Self::Io(*kind),
            Self::Utf8Conversion => Self::Utf8Conversion,
            Self::OutOfMemory => Self::OutOfMemory,
        })
    }
}

fn copied_report(alloc: Global, report: &ReportError) -> TeraResult<Box<ReportError>>
    ensures ok { IfOk result (λ copy. report_of copy.value ≡ report_of report.now) }
    ensures err { IfErr result IsOutOfMemory }
{
    Ok(Box::new(alloc, report.clone(alloc)?)?)
}

fn extended(alloc: Global, tpl: &str, chain: &[String]) -> Result<ErrorKind, AllocError>
    ensures ok { IfOk result (λ copy. refusal_of copy
        ≡ circular_extend tpl.now (map string_bytes chain.now)) }
    ensures succeeds { tpl.now ≡ [] → chain.now ≡ [] → IsOk result }
{
    Ok(ErrorKind::CircularExtend {
        tpl: text_of(alloc, tpl)?,
        inheritance_chain: all_copied(alloc, chain)?,
    })
}

fn included(alloc: Global, tpl: &str, chain: &[String]) -> Result<ErrorKind, AllocError>
    ensures ok { IfOk result (λ copy. refusal_of copy
        ≡ circular_include tpl.now (map string_bytes chain.now)) }
    ensures succeeds { tpl.now ≡ [] → chain.now ≡ [] → IsOk result }
{
    Ok(ErrorKind::CircularInclude {
        tpl: text_of(alloc, tpl)?,
        include_chain: all_copied(alloc, chain)?,
    })
}

#[tactic(auto, using(std::proofs::lemmas::List::map_more))]
fn all_copied(alloc: Global, texts: &[String]) -> Result<Vec<String>, AllocError>
    ensures ok { IfOk result (λ copies.
        map string_bytes copies.items ≡ map string_bytes texts.now) }
    ensures succeeds { texts.now ≡ [] → IsOk result }
{
    let mut copies = Vec::with_capacity(alloc, texts.len())?;
    for text in texts {
        copies.push(text_of(alloc, text)?)?;
    }
    Ok(copies)
}
