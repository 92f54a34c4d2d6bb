// Square root and fused multiply-add of f64, each rounded once. `root::root` and `fused::fused` are the entries:
// the other functions are `pub` only because they stand in modules of their own.
#![tactic(auto)]

pub mod fused;
pub mod pack;
pub mod pair;
pub mod root;
pub mod wide;
