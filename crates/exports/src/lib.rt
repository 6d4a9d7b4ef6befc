// The matcher for C and Rust. Each function is thin over a public call; its answer is a status and numbers in a lent `out`.
#![tactic(auto)]

mod built;
mod calls;
mod limits;
