//! The names of the integer types.
ghost use Rattle.tera_script.specs.inner.Command.{IsTypeOf};

use tera_context::IntType;

/// The integer type of a name. `None` for any other name. Takes no memory.
pub(crate) fn type_in(name: &[u8]) -> Option<IntType>
    ensures { IsTypeOf name.now result }
{
    if name == b"u8".as_slice() {
        Some(IntType::U8)
    } else if name == b"u16".as_slice() {
        Some(IntType::U16)
    } else if name == b"u32".as_slice() {
        Some(IntType::U32)
    } else if name == b"u64".as_slice() {
        Some(IntType::U64)
    } else if name == b"u128".as_slice() {
        Some(IntType::U128)
    } else if name == b"usize".as_slice() {
        Some(IntType::Usize)
    } else if name == b"i8".as_slice() {
        Some(IntType::I8)
    } else if name == b"i16".as_slice() {
        Some(IntType::I16)
    } else if name == b"i32".as_slice() {
        Some(IntType::I32)
    } else if name == b"i64".as_slice() {
        Some(IntType::I64)
    } else if name == b"i128".as_slice() {
        Some(IntType::I128)
    } else if name == b"isize".as_slice() {
        Some(IntType::Isize)
    } else {
        None
    }
}
