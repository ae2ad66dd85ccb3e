//! Values, keys and maps, and what types of Rust give. They stand in `tera_values` and
//! `tera_conversions`.
pub mod number;

pub use tera_conversions::{
    FunctionResult, ToKey, ToValue, maps_hold_each_entry, maps_keep_the_order_of_entries,
};
pub use tera_values::{
    ConversionRefused, HashState, IntType, Key, KeyHasher, Map, OwnPairs, Pairs, Value, ValueKind,
    is_well_made, key_is_well_made, kinds_equal_where_the_same, map_is_well_made,
    what_is_told_is_the_refusal,
};
