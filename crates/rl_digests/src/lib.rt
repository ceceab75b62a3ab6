//! SHA-256 (FIPS 180-4) of bytes that come piece by piece.
//!
//! - `hasher`: `Hasher`, which contracts see as the bytes that it was fed. `fed`: `Fed`, what it was fed, for contracts alone.
#![tactic(auto)]

pub mod fed;
pub mod hasher;

pub use hasher::Hasher;
