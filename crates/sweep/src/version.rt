// The records of the lent table of versions.
use cells::cell::Root;

/// A record of the table: the root of the version that is kept at this place, if one is.
/// A struct, and no bare `Option`: a record of the lent table has a name of its own.
#[derive(Clone, Copy)]
pub struct Version {
    pub root: Option<Root>,
}
