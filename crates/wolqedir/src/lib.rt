//! The library `wolqedir`: a host of many WebAssembly instances behind a handle, for C and for whoever calls C.
//!
//! `bindings/c/wolqedir.h` declares the exports, and says what callers owe. Nothing is required of them but what types say: a
//! handle that is empty, freed twice or used after it was freed answers a code, and so does each request that a host refuses.
//! The contract of each export says what the handle holds then: at code 0 a host to which the request has led, as the contract
//! of `wh_hand` has it; at any other code what it held before. What is written for the caller is what that contract says at
//! code 0, and else as it was.
#![tactic(auto)]

mod asking;
mod codes;
mod coming;
mod handle;
mod hosting;
mod looking;
mod rooms;
mod running;
mod sealing;
mod shapes;
mod slot;
mod telling;
mod texts;
mod transcripts;
