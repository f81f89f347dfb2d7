// The table of version records, each read, filled and emptied in place.
ghost use Rattle.std.specs.Prelude.{◌≡◌, ◌<◌, List, length, replicate, slice_set};
ghost use Rattle.sweep.specs.Kept.{vacant};
ghost use Rattle.sweep.specs.declared.version.Version.{Version as VersionOf};
ghost use Rattle.memory.specs.Rows.{recorded, filled};
ghost use Rattle.memory.specs.Versions.{version_at, root_at, kept_at};

use cells::cell::{EMPTY, Root};
use std::marker::Model;
use sweep::version::Version;

/// The root of the version at a place, if there is one; past the end there is none.
pub fn version(table: &[Version], place: u32) -> Option<Root>
    ensures { result ≡ version_at table.now place }
{
    table.get(place as usize)?.root
}

/// The root at a place, that of the empty list where there is no version.
pub fn root(table: &[Version], place: u32) -> Root
    ensures { result ≡ root_at table.now place }
{
    version(table, place).unwrap_or(EMPTY)
}

/// Whether there is a version at a place.
pub fn is_kept(table: &[Version], place: u32) -> bool
    ensures { result ≡ kept_at table.now place }
{
    version(table, place).is_some()
}

/// Puts a version at a place, or takes it from there.
pub fn record_at(table: &mut [Version], place: u32, root: Option<Root>)
    requires { place < length table.old }
    ensures { table.new ≡ slice_set table.old place (recorded root) }
{
    table[place as usize].root = root;
}

/// Puts a version at a place.
pub fn fill(table: &mut [Version], place: u32, root: Root)
    requires { place < length table.old }
    ensures { table.new ≡ slice_set table.old place (filled root) }
{
    record_at(table, place, Some(root));
}

/// Takes the version from a place.
pub fn clear(table: &mut [Version], place: u32)
    requires { place < length table.old }
    ensures { table.new ≡ slice_set table.old place vacant }
{
    record_at(table, place, None);
}

/// Takes the versions from all places.
pub fn clear_all(table: &mut [Version])
    ensures { table.new ≡ replicate (length table.old) vacant }
{
    table.fill(Version { root: None });
}

/// The lent table as one value. A contract sees its records; of what the lent slice holds afterwards only the functions
/// above speak, since a contract does not see which slice it is that a struct with a model holds.
#[derive(Drop)]
pub struct Table<'a> {
    versions: &'a mut [Version],
}

impl<'a> Model for Table<'a> {
    ghost Value = { List VersionOf };

    ghost view = { λ t. t.versions.now };
}

impl<'a> Table<'a> {
    /// The lent records as a table, with no version at any place.
    pub fn new(versions: &'a mut [Version]) -> Table<'a>
        ensures { result ≡ replicate (length versions.old) vacant }
    {
        clear_all(versions);
        Table { versions }
    }

    /// The root of the version at a place, if there is one; past the end there is none.
    pub fn get(&self, place: u32) -> Option<Root>
        ensures { result ≡ version_at self.now place }
    {
        version(self.versions, place)
    }

    /// The root at a place, that of the empty list where there is no version.
    pub fn root(&self, place: u32) -> Root
        ensures { result ≡ root_at self.now place }
    {
        root(self.versions, place)
    }

    /// Whether there is a version at a place.
    pub fn is_kept(&self, place: u32) -> bool
        ensures { result ≡ kept_at self.now place }
    {
        is_kept(self.versions, place)
    }

    /// Puts a version at a place, or takes it from there.
    pub fn set(&mut self, place: u32, root: Option<Root>)
        requires { place < length self.old }
        ensures { self.new ≡ slice_set self.old place (recorded root) }
    {
        record_at(self.versions, place, root);
    }

    /// Takes the versions from all places.
    pub fn clear(&mut self)
        ensures { self.new ≡ replicate (length self.old) vacant }
    {
        clear_all(self.versions);
    }
}
