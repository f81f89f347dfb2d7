use super::cell::Root;
use super::fingers::Digit;

/// The first level of a tree, as it is seen from a side.
#[derive(Clone, Copy)]
pub enum View {
    Empty,
    Single {
        finger: u32,
    },
    Deep {
        near: Digit,
        middle: Root,
        far: Digit,
    },
}
