//! Tables of names that nobody can make slow: hashed under a key that the names themselves decide.
//!
//! Read `specs/Hashing.antt`, which says what the key is made of.
#![tactic(auto)]

pub mod hasher;
