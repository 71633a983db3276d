//! The library for C: a blob is checked once, and then asked by its bytes, without memory. Each call of `dtool.h` is an export here. Its clauses
//! are those of the library's call that it makes, over `placed_of` of the bytes: a value that lives between two calls is not needed.
//!
//! Two conditions are the caller's, and no call checks them: the bytes are a blob (`IsBlob`, which `dtool_check` ensures), and a node is one of
//! that blob (`IsNode`, which each call that gives a node ensures). The edits have a third: the blob is one that can be edited (`IsEditable`,
//! which `dtool_open_into` and each edit ensure).
#![tactic(auto)]

mod crossing;
mod editing;
mod looking;
mod path;
mod resolving;
