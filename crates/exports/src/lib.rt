// Functions on numbers and bytes for programs in other languages: the call, and the reader of a TIC. A slice is a pointer and then a length.
#![tactic(auto)]

mod calls;
mod numbers;
mod readings;
mod rewriting;
