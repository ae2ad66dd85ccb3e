//! The handle of a session, as C holds it.
ghost use Rattle.std.specs.Prelude.{◌≡◌, MatchOption, Option, None, Some};
ghost use Rattle.tera_c.specs.Pointer.{state_coded};
ghost use Rattle.tera_c.specs.declared.session_state.SessionState.{SessionState};

use crate::parts::Parts;
use crate::session_state::SessionState;
use std::alloc::Global;
use std::marker::Model;
use std::ptr;

/// A session, open or closed. It is a pointer, which C passes on and never reads.
#[repr(C)]
pub struct Session {
    pointer: *mut u8,
    pub(crate) ghost inner: { Option SessionState } by { state_coded },
}

impl Model for Session {
    ghost use Rattle.tera_c.specs.Pointer.{pointer_owns};

    ghost also_owns = { λ s. pointer_owns s.pointer s.inner };
}

impl Session {
    /// A closed one: the null pointer.
    pub(crate) fn closed() -> Session
        ensures { result.inner ≡ None }
    {
        Session {
            pointer: ptr::null_mut(),
        }
    }

    /// An open one, which owns the box.
    pub(crate) fn of(inner: Box<SessionState>) -> Session
        ensures { result.inner ≡ Some inner.value }
    {
        Session::of_parts(Parts::of(inner))
    }

    /// The box that an open one owns; a closed one has none.
    pub(crate) fn into_box(self, alloc: Global) -> Option<Box<SessionState>>
        ensures { MatchOption result (self.inner ≡ None) (λ inner. self.inner ≡ Some inner.value) }
    {
        match self.into_parts(alloc) {
            Some(parts) => Some(parts.into_box()),
            None => None,
        }
    }

    // An open session of the parts of its box.
    fn of_parts(parts: Parts<SessionState, Global>) -> Session
        ensures { result.inner ≡ Some parts.value }
    {
        let Parts { ptr, alloc: _ } = parts;
        Session {
            pointer: ptr as *mut u8,
        }
    }

    // The parts of the box of an open session.
    fn into_parts(self, alloc: Global) -> Option<Parts<SessionState, Global>>
        ensures { MatchOption result (self.inner ≡ None) (λ parts. self.inner ≡ Some parts.value) }
    {
        let Session { pointer } = self;
        if pointer.is_null() {
            None
        } else {
            Some(Parts {
                ptr: pointer as *mut SessionState,
                alloc,
            })
        }
    }
}

/// Only a closed one is dropped: an open one first goes back into its box.
impl Drop for Session {
    fn drop(self)
        requires { self.inner ≡ None }
    {
        let Session { pointer: _ } = self;
    }
}
