//! Commands with names and texts of their own.
ghost use Rattle.std.specs.Prelude.{◌≡◌, IfOk, IsOk, None};
ghost use Rattle.std.specs.Option.{option_map};
ghost use Rattle.std.specs.String.{string_bytes};
ghost use Rattle.tera_meaning.specs.Request.{ask, asking, extend, find, weigh};
ghost use Rattle.tera_meaning.specs.State.{State};
ghost use Rattle.tera_context.specs.Call.{command_of, request_of};
ghost use Rattle.tera_context.specs.Request.{command_form, name_of, question_of, request_form};
ghost use Rattle.tera_context.specs.Request.{search_form, weighing_of};

use crate::call::{Call, Step};
use crate::request::{Command, Question, Request, Search, Weighing};
use std::alloc::{AllocError, Global};

impl Command<'_> {
    /// The step that it is, with names and texts of its own. Takes memory for these, and fails for
    /// want of it alone. An `Extend` that keeps nothing has none.
    pub fn into_step(self, alloc: Global) -> Result<Step, AllocError>
        ensures step { IfOk result (λ step. command_of step ≡ command_form self.entry) }
        ensures free { (source : State) → command_form self.entry ≡ asking (extend source)
            → IsOk result }
    {
        let Command { request, into } = self;
        let into = owned_name(alloc, into)?;
        let call = owned_call(alloc, request)?;
        Ok(Step { call, into })
    }
}

// A name of its own, if there is one.
fn owned_name(alloc: Global, name: Option<&str>) -> Result<Option<String>, AllocError>
    ensures name { IfOk result (λ own. option_map string_bytes own ≡ name_of name.entry) }
    ensures free { name_of name.entry ≡ None → IsOk result }
{
    match name {
        Some(name) => Ok(Some(String::from_str(alloc, name)?)),
        None => Ok(None),
    }
}

// The call that a request is.
fn owned_call(alloc: Global, request: Request<'_>) -> Result<Call, AllocError>
    ensures call { IfOk result (λ call. request_of call ≡ request_form request.entry) }
    ensures free { (source : State) → request_form request.entry ≡ extend source → IsOk result }
{
    match request {
        Request::Set { name, value } => {
            let name = String::from_str(alloc, name)?;
            Ok(Call::Set { name, value })
        }
        Request::Extend { source } => Ok(Call::Extend { source }),
        Request::Remove { name } => {
            let name = String::from_str(alloc, name)?;
            Ok(Call::Remove { name })
        }
        Request::MarkSafe { name } => {
            let of = String::from_str(alloc, name)?;
            Ok(Call::MarkSafe { of })
        }
        Request::Ask { question, name } => {
            let name = String::from_str(alloc, name)?;
            Ok(question_call(question, name))
        }
        Request::Weigh {
            weighing,
            left,
            right,
        } => {
            let left = String::from_str(alloc, left)?;
            let right = String::from_str(alloc, right)?;
            Ok(weighing_call(weighing, left, right))
        }
        Request::Find(search) => owned_search(alloc, search),
    }
}

// The call that asks this of the value of a name.
fn question_call(question: Question, name: String) -> Call
    ensures { request_of result ≡ ask (question_of question) (string_bytes name) }
{
    match question {
        Question::Has => Call::Has { name },
        Question::Truthy => Call::Truthy { of: name },
        Question::IsSafe => Call::IsSafe { of: name },
        Question::Len => Call::Len { of: name },
        Question::Kind => Call::Kind { of: name },
        Question::Print => Call::Print { of: name },
        Question::Escape => Call::Escape { of: name },
        Question::Fields => Call::Fields { of: name },
        Question::Walk => Call::Walk { of: name },
    }
}

// The call that weighs the values of two names so.
fn weighing_call(weighing: Weighing, left: String, right: String) -> Call
    ensures { request_of result
        ≡ weigh (weighing_of weighing) (string_bytes left) (string_bytes right) }
{
    match weighing {
        Weighing::Equal => Call::Equal { left, right },
        Weighing::Compare => Call::Compare { left, right },
        Weighing::TryCompare => Call::TryCompare { left, right },
        Weighing::Contains => Call::Contains {
            of: left,
            needle: right,
        },
    }
}

// The call that finds this.
fn owned_search(alloc: Global, search: Search<'_>) -> Result<Call, AllocError>
    ensures { IfOk result (λ call. request_of call ≡ find (search_form search.entry)) }
{
    match search {
        Search::Get { name } => {
            let name = String::from_str(alloc, name)?;
            Ok(Call::Get { name })
        }
        Search::Path { of, path } => {
            let of = String::from_str(alloc, of)?;
            let path = path.into_owned(alloc)?;
            Ok(Call::Path { of, path })
        }
        Search::Attr { of, attr } => {
            let of = String::from_str(alloc, of)?;
            let attr = attr.into_owned(alloc)?;
            Ok(Call::Attr { of, attr })
        }
        Search::Item { of, item } => {
            let of = String::from_str(alloc, of)?;
            let item = String::from_str(alloc, item)?;
            Ok(Call::Item { of, item })
        }
        Search::Slice {
            of,
            start,
            end,
            step,
        } => {
            let of = String::from_str(alloc, of)?;
            Ok(Call::Slice {
                of,
                start,
                end,
                step,
            })
        }
        Search::Reverse { of } => {
            let of = String::from_str(alloc, of)?;
            Ok(Call::Reverse { of })
        }
        Search::Binary { op, left, right } => {
            let left = String::from_str(alloc, left)?;
            let right = String::from_str(alloc, right)?;
            Ok(Call::Binary { op, left, right })
        }
        Search::Negate { of } => {
            let of = String::from_str(alloc, of)?;
            Ok(Call::Negate { of })
        }
        Search::Read { of, to } => {
            let of = String::from_str(alloc, of)?;
            Ok(Call::Read { of, to })
        }
    }
}
