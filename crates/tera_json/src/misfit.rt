//! What does not fit, and where: the errors of what is not read or not written.
ghost use Rattle.std.specs.Prelude.{◌≡◌, [], ◌∷◌, List};
ghost use Rattle.tera_json.specs.Misfits.{misfit_text, said, under};
ghost use Rattle.tera_json.specs.Places.{item_step, name_step};
ghost use Rattle.tera_json.specs.inner.Stopped.{IsDue, misfit_of, reason_of};
ghost use Rattle.tera_json.specs.Misfits as misfits;
ghost use Rattle.tera_json.specs.Documents.{refusal_of};
ghost use Rattle.tera_report.specs.Errors.{Raises, Refuses};
ghost use Rattle.tera_report.specs.Refusal.{message};

use crate::place::{in_item, in_member};
use std::alloc::{AllocError, AllocFailed, Global};
use tera_report::Error;

/// Why something has no place in the other form.
#[derive(Clone, Copy)]
pub(crate) enum Reason<'a> {
    /// A number, by its text, that no value holds.
    Number(&'a str),
    /// An array or a map inside as many as there may be.
    Levels,
    /// A value of a kind, by its word, that JSON has not.
    Kind(&'a str),
    /// A key that is written as another key of its map is.
    Key,
}

/// What has no place in the other form, and where it stands.
#[derive(Drop)]
pub(crate) struct Misfit<'a> {
    pub(crate) place: String,
    pub(crate) reason: Reason<'a>,
}

/// Why a walk stopped.
#[derive(Drop)]
pub(crate) enum Stop<'a> {
    /// Memory was refused.
    Memory,
    /// Something does not fit.
    Misfit(Misfit<'a>),
}

impl From<AllocError> for Stop<'_> {
    ghost use Rattle.std.specs.Prelude.{◌≡◌};
    ghost use Rattle.tera_json.specs.declared.misfit.Stop.TheVariants.{Memory};

    ghost from_gives = { λ _ s. s ≡ Memory };

    fn from(_refused: AllocError) -> Self {
        Stop::Memory
    }
}

impl<T: Drop> From<AllocFailed<T>> for Stop<'_> {
    ghost use Rattle.std.specs.Prelude.{◌≡◌};
    ghost use Rattle.tera_json.specs.declared.misfit.Stop.TheVariants.{Memory};

    ghost from_gives = { λ _ s. s ≡ Memory };

    fn from(_refused: AllocFailed<T>) -> Self {
        Stop::Memory
    }
}

impl<'a> Stop<'a> {
    /// What stands at the top does not fit.
    pub(crate) fn here(alloc: Global, reason: Reason<'a>) -> Stop<'a>
        ensures { IsDue (misfits.here (reason_of reason.entry) ∷ []) result }
    {
        Stop::Misfit(Misfit {
            place: String::new(alloc),
            reason,
        })
    }

    /// Why the walk of an array stopped, where that of its item did.
    pub(crate) fn in_item(self, alloc: Global, at: usize) -> Stop<'a>
        ensures { (found : List misfits.Misfit) → IsDue found self.entry
            → IsDue (under (item_step at) found) result }
    {
        match self {
            Stop::Memory => Stop::Memory,
            Stop::Misfit(misfit) => match in_item(alloc, at, misfit.place.as_str()) {
                Ok(place) => Stop::Misfit(Misfit {
                    place,
                    reason: misfit.reason,
                }),
                Err(_) => Stop::Memory,
            },
        }
    }

    /// Why the walk of an object or a map stopped, where that of its member did.
    pub(crate) fn in_member(self, alloc: Global, name: &str) -> Stop<'a>
        ensures { (found : List misfits.Misfit) → IsDue found self.entry
            → IsDue (under (name_step name.now) found) result }
    {
        match self {
            Stop::Memory => Stop::Memory,
            Stop::Misfit(misfit) => match in_member(alloc, name, misfit.place.as_str()) {
                Ok(place) => Stop::Misfit(Misfit {
                    place,
                    reason: misfit.reason,
                }),
                Err(_) => Stop::Memory,
            },
        }
    }

    /// The error of the walk. `Out of memory` where its text finds none.
    pub(crate) fn into_error(self, alloc: Global) -> Error
        ensures { (found : List misfits.Misfit) → IsDue found self.entry
            → Refuses (refusal_of found) result }
    {
        match self {
            Stop::Memory => Error::from(AllocError),
            Stop::Misfit(misfit) => misfit.error(alloc),
        }
    }
}

impl Misfit<'_> {
    // The error of what does not fit.
    fn error(&self, alloc: Global) -> Error
        ensures { Raises (message (misfit_text (misfit_of self.now))) result }
    {
        let place = self.place.as_str();
        match self.reason {
            Reason::Number(text) => no_integer(alloc, place, text),
            Reason::Levels => too_deep(alloc, place),
            Reason::Kind(name) => no_json(alloc, place, name),
            Reason::Key => same_key(alloc, place),
        }
    }
}

// A number, by its text, that no value holds.
fn no_integer(alloc: Global, place: &str, text: &str) -> Error
    ensures { Raises (message (said place.now (misfits.no_integer text.now))) result }
{
    let after = "` is not an integer from -2^127 to 2^128 - 1";
    Error::message_of(alloc, &["Number `", text, "` at `", place, after])
}

// An array or a map inside as many as there may be.
fn too_deep(alloc: Global, place: &str) -> Error
    ensures { Raises (message (said place.now misfits.too_deep)) result }
{
    Error::message_of(alloc, &["More than 64 levels at `", place, "`"])
}

// A value of a kind that JSON has not.
fn no_json(alloc: Global, place: &str, kind: &str) -> Error
    ensures { Raises (message (said place.now (misfits.no_json kind.now))) result }
{
    let before = "Value of type `";
    Error::message_of(alloc, &[before, kind, "` at `", place, "` has no JSON"])
}

// A key that is written as another is.
fn same_key(alloc: Global, place: &str) -> Error
    ensures { Raises (message (said place.now misfits.same_key)) result }
{
    let after = "` is written as another key is";
    Error::message_of(alloc, &["Key at `", place, after])
}
