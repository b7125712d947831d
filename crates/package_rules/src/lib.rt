//! Packages, what they depend on and conflict with, and the formula of their installations.
//!
//! Source of the law: Mancinelli, Boender, Di Cosmo, Vouillon, Durak, Leroy, Treinen, Managing the
//! complexity of large free and open source package-based software distributions, 2006; of the
//! order of versions: deb-version(7); of the relations: Debian Policy Manual, chapter 7.
#![tactic(auto)]

pub mod laws;
