// The entries for the plant historian, which is written in C (rules 10.5 to 10.8, 12.9 and 15.7).
// The layers below answer a period file, a meter's sheet and a list to be written; here the answers go into the bytes and numbers that the
// historian lends.
#![tactic(auto)]

pub mod call;
pub mod list;
pub mod sheet;

pub use crate::call::steeplecuff_quantify;
pub use crate::list::steeplecuff_write;
pub use crate::sheet::steeplecuff_days;
