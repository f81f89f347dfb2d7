use cells::cell::Root;

/// A list in two.
#[derive(Clone, Copy)]
pub struct Halves {
    pub left: Root,
    pub right: Root,
}
