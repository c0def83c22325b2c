//! Two hosts, the wires between them and the threads that call them: the part of the model that is not TCP.
//!
//! This crate has no code, only definitions and lemmas for the crates above. A host has a body, known here only by its
//! `Kernel`, and three tables: the segments it built, those it sent, and its inbox. A table is a list of entries by
//! number, read and written in the words of `IndexMap`, so that maps in code implement it. No entry is ever removed: a
//! sent segment is marked, and one that left the inbox becomes None in its place. Likewise, a thread that is in no call
//! stays as `Idle`. The rules of a step are a list, lowest-numbered first.
//!
//! - `specs/Tables`, `specs/Hosts`: tables of entries by number; kernels, hosts, threads, worlds and steps
//! - `specs/HostRules`, `specs/HostSteps`: which rules a step breaks, and the world after it
//! - `specs/Turns`: in each thread the beginning of a call, one effect and the end take turns; `proofs/Turns` proves it
//!   for every run
#![tactic(auto)]
