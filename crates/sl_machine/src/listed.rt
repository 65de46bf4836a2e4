// Trusted types: Listed.
// Lists, as contracts see them.
ghost use Rattle.std.specs.Prelude.{◌≡◌};

use std::marker::Model;

/// Items in order. A contract sees their list.
#[derive(Debug, Drop)]
pub struct Listed<T> {
    pub items: Vec<T>,
}

impl<T> Model for Listed<T> {
    ghost use Rattle.std.specs.Prelude.{List};

    ghost Value = { List T };

    ghost view = { λ l. l.items.items };
}

impl<T> Listed<T> {
    /// The items.
    pub fn as_slice(&self) -> &[T]
        ensures { result.now ≡ self.now }
    {
        self.items.as_slice()
    }
}
