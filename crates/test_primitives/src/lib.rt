// The primitives for C: what the tests and benchmarks of this repository link. The library's own archive is another.
#![tactic(auto)]

mod ccm_calls;
mod cmac_calls;
mod gcm_calls;
mod hashes;
