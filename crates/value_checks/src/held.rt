//! What a test says of several rows.
use std::alloc::Global;
use std::fmt::Debug;
use std::process::Abort;

/// What a row saw, where it does not hold.
pub type Seen = Result<(), String>;

/// Each row holds; the first that does not is told as it is written, with what it saw.
macro_rules! hold {
    ($rt:expr, [$($row:expr),* $(,)?] $(,)?) => {
        $($crate::held::holds($rt, stringify!($row), $row);)*
    };
}

pub(crate) use hold;

/// The row holds; one that does not is told by its name, with what it saw.
pub fn holds(rt: &impl Abort, name: &str, row: Seen) {
    match row {
        Ok(()) => {}
        Err(seen) => panic!(rt; "{name}: {seen}"),
    }
}

/// That is so; where it is not, what was found is told beside what was wanted.
pub fn is_so<F: Debug, W: Debug>(alloc: Global, holds: bool, found: &F, wanted: &W) -> Seen {
    if holds {
        Ok(())
    } else {
        let told = format!(in alloc; "found {found:?}, wanted {wanted:?}");
        Err(told.unwrap_or(String::new(alloc)))
    }
}

/// It is that; what is not is told beside it.
pub fn same<T: PartialEq + Debug>(alloc: Global, found: &T, wanted: &T) -> Seen {
    is_so(alloc, *found == *wanted, found, wanted)
}

/// Its debug text is that; one that is not is told beside it, as it stands.
pub fn shows<D: Debug>(alloc: Global, it: &D, wanted: &str) -> Seen {
    let shown = format!(in alloc; "{it:?}").unwrap_or(String::new(alloc));
    if shown.as_str() == wanted {
        Ok(())
    } else {
        let told = format!(in alloc; "found {shown}, wanted {wanted}");
        Err(told.unwrap_or(String::new(alloc)))
    }
}

/// Nothing was found; what was is told.
pub fn nothing<T: Debug>(alloc: Global, found: &Option<T>) -> Seen {
    is_so(alloc, found.is_none(), found, &"nothing")
}

/// What was found in the place of what was wanted is told, and let go.
pub fn unwanted<T: Debug + Drop>(alloc: Global, found: T, wanted: &str) -> Seen {
    let row = is_so(alloc, false, &found, &wanted);
    drop(found);
    row
}

/// Both hold; the first that does not is told.
pub fn both(first: Seen, second: Seen) -> Seen {
    first?;
    second
}
