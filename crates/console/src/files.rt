// Files, whole.
use crate::stop::Stop;
use std::fs;

// The bytes of a file.
pub(crate) fn read<'a>(rt: &HostRuntime, name: &'a str) -> Result<Vec<u8>, Stop<'a>> {
    fs::read(rt, name).map_err(|error| Stop::Unreadable { name, error })
}

// Writes a file.
pub(crate) fn save<'a>(rt: &HostRuntime, name: &'a str, bytes: &[u8]) -> Result<(), Stop<'a>> {
    fs::write(rt, name, bytes).map_err(|error| Stop::Unwritable { name, error })
}
