// The lines and targets of an accepted file, one after another.
ghost use Rattle.std.specs.Prelude.{◌≡◌, Ok};
ghost use Rattle.std.specs.Iterator.{YieldsFirstBy, item_count};
ghost use Rattle.planfile.specs.Format.{Content, verdict};
ghost use Rattle.planfile.specs.Reading.{ahead, coming, content_in, item_said};

use super::read::{Field, Step, first_field};
use kinds::Target;

/// A line, as a part of the file's own bytes, or a target.
#[derive(Clone, Copy, PartialEq, Eq, Debug)]
pub enum Item<'a> {
    Piece(&'a [u8]),
    Target(Target),
}

/// The items of a file that are still to come.
#[derive(Clone, Copy)]
pub struct Fields<'a> {
    left: &'a [u8],
}

impl<'a> Fields<'a> {
    /// The items of a file, up to an end field or to what is no field: of an accepted file, just what the verdict has.
    pub fn of(file: &'a [u8]) -> Fields<'a>
        ensures items { coming result ≡ ahead file.now }
        ensures accepted { (c : Content) → verdict file.now ≡ Ok c → content_in (coming result) ≡ c }
    {
        Fields { left: file }
    }
}

impl<'a> Iterator for Fields<'a> {
    type Item = Item<'a>;

    ghost next_gives = { YieldsFirstBy item_said coming };

    ghost remaining = { item_count coming };

    fn next(&mut self) -> Option<Item<'a>> {
        let Ok(
            Step {
                field: Field::Item(item),
                rest,
            },
        ) = first_field(self.left)
        else {
            return None;
        };
        self.left = rest;
        Some(item)
    }
}
