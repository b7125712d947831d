//! Versions, ready to be compared.
ghost use Rattle.std.specs.Prelude.{◌≡◌, List, ℕ, IfErr, IfOk};
ghost use Rattle.package_rules.specs.Debian.{compare_versions};
ghost use Rattle.packages.specs.Versions.{HasParts, IsVersionFault};

use crate::fault::VersionFault;
use crate::parts::{split_epoch, split_revision};
use crate::ranks::{compare_ranks, ranks};
use std::alloc::Global;
use std::cmp::Ordering;

/// A version, whose parts are the ranks of its bytes and the numbers that its digits are.
#[derive(Drop)]
pub struct Version {
    pub epoch: Vec<u64>,
    pub upstream: Vec<u64>,
    pub revision: Vec<u64>,
}

impl Version {
    /// Returns the version that a text is.
    ///
    /// # Errors
    ///
    /// `TooLarge` if it has a number of 2^64 or more, `OutOfMemory`.
    pub fn of(alloc: Global, text: &[u8]) -> Result<Version, VersionFault>
        ensures parts { IfOk result (HasParts text.now) }
        ensures fault { IfErr result (IsVersionFault text.now) }
    {
        let (epoch, rest) = split_epoch(text);
        let (upstream, revision) = split_revision(rest);
        Ok(Version {
            epoch: ranks(alloc, epoch)?,
            upstream: ranks(alloc, upstream)?,
            revision: ranks(alloc, revision)?,
        })
    }

    /// Compares two versions, as Debian orders them.
    pub fn compare(&self, other: &Version) -> Ordering
        ensures { (v w : List ℕ) → HasParts v self.now → HasParts w other.now
            → result ≡ compare_versions v w }
    {
        compare_ranks(&self.epoch, &other.epoch)
            .then(compare_ranks(&self.upstream, &other.upstream))
            .then(compare_ranks(&self.revision, &other.revision))
    }
}
