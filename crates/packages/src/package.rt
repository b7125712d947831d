//! Packages, as definitions have them.

/// How a version must compare with the one that a need names.
#[derive(Clone, Copy, Debug, PartialEq, Eq)]
pub enum Relation {
    /// `<<`
    Less,
    /// `<=`
    LessOrEqual,
    /// `=`
    Equal,
    /// `>=`
    GreaterOrEqual,
    /// `>>`
    Greater,
}

/// Which versions will do.
#[derive(Drop)]
pub struct Bound {
    pub relation: Relation,
    pub version: Vec<u8>,
}

/// What can be depended on, conflicted with and asked for: a name, perhaps with a bound.
#[derive(Drop)]
pub struct Need {
    pub name: Vec<u8>,
    pub bound: Option<Bound>,
    /// Whether only a package will do that allows it for any architecture (`python3:any`).
    pub any: bool,
}

/// Alternatives, of which one must be met.
#[derive(Drop)]
pub struct Group {
    pub needs: Vec<Need>,
}

/// What a package provides beside itself: a name, perhaps at a version.
#[derive(Drop)]
pub struct Feature {
    pub name: Vec<u8>,
    pub version: Option<Vec<u8>>,
}

/// A package, as a stanza describes it. It is known by its place in the list of all.
#[derive(Drop)]
pub struct Package {
    pub name: Vec<u8>,
    pub version: Vec<u8>,
    /// `Pre-Depends` and `Depends`.
    pub depends: Vec<Group>,
    /// `Conflicts` and `Breaks`.
    pub conflicts: Vec<Need>,
    pub provides: Vec<Feature>,
    /// `Multi-Arch: allowed`.
    pub allows_any: bool,
}
