//! The headline on equality, by the paths that this crate gives out.
ghost use Rattle.std.specs.Prelude.{◌≡◌, ◌↔◌, IsTrue};
ghost use Rattle.tera.specs.Meaning.{meaning};

use tera_values::Value;

/// Whether two values mean the same, which is what `==` answers. Takes no memory.
pub fn mean_the_same(left: &Value, right: &Value) -> bool
    ensures { IsTrue result ↔ (meaning left.now ≡ meaning right.now) }
{
    *left == *right
}
