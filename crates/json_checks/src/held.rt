//! What a test says of several rows.
use std::process::Abort;

/// Each row holds; the first that does not is told as it is written.
macro_rules! hold {
    ($rt:expr, [$($row:expr),* $(,)?] $(,)?) => {
        $crate::held::all_hold($rt, &[$((stringify!($row), $row)),*])
    };
}

pub(crate) use hold;

/// Each row holds; the first that does not is told by its name.
pub fn all_hold(rt: &impl Abort, rows: &[(&str, bool)]) {
    for (name, holds) in rows {
        assert!(rt; *holds, "{name}");
    }
}
