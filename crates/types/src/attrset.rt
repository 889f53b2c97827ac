// A set's fields; their words are those of the crate `words`.
pub use words::attrset::{field_name, field_optional, field_word, field_zero, renewed};
