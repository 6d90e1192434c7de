// The working on whole numbers: CIE76, CIE94 and CIEDE2000 of two samples, the signed parts and every
// figure on the way, and the rule of a verdict. Each difference is a module over the shared parts.
#![tactic(auto)]

pub mod cie76;
pub mod cie94;
pub mod ciede2000;
mod parts;
pub mod prepared;
pub mod verdict;

pub use parts::SignedParts;
