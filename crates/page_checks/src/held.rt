//! What a test says of several rows.
use std::alloc::Global;
use std::process::Abort;

/// What a row saw, where it does not hold.
pub type Seen = Result<(), String>;

/// Each row holds; the first that does not is told as it is written, with what it saw.
macro_rules! hold {
    ($rt:expr, [$($row:expr),* $(,)?] $(,)?) => {
        $($crate::held::holds($rt, stringify!($row), $row);)*
    };
}

pub(crate) use hold;

/// The row holds; one that does not is told by its name, with what it saw.
pub fn holds(rt: &impl Abort, name: &str, row: Seen) {
    match row {
        Ok(()) => {}
        Err(seen) => panic!(rt; "{name}: {seen}"),
    }
}

/// The text is that; one that is not is told beside it.
pub fn same(alloc: Global, found: &str, wanted: &str) -> Seen {
    is_so(alloc, found == wanted, found, wanted)
}

/// That is so; where it is not, the text that was found is told beside what was wanted.
pub fn is_so(alloc: Global, holds: bool, found: &str, wanted: &str) -> Seen {
    if holds {
        Ok(())
    } else {
        let told = format!(in alloc; "found {found:?}, wanted {wanted:?}");
        Err(told.unwrap_or(String::new(alloc)))
    }
}
