// Trusted types: Name, Bytes.
// Texts and names as bytes.
use std::marker::Model;

/// The name of a device or a host: 1 to 16 bytes of `a` to `z`, `0` to `9` and `_`.
#[derive(Debug, Drop)]
pub struct Name {
    pub items: Vec<u8>,
}

impl Model for Name {
    ghost use Rattle.std.specs.Prelude.{List, ℕ};
    ghost use Rattle.sl_parts.specs.Text.{IsName};

    ghost Value = { List ℕ };

    ghost view = { λ n. n.items.items };

    ghost invariant = { λ n. IsName n.items.items };
}

/// A text, as the list of its bytes.
#[derive(Debug, Drop)]
pub struct Line {
    pub items: Vec<u8>,
}

impl Model for Line {
    ghost use Rattle.std.specs.Prelude.{List, ℕ};

    ghost Value = { List ℕ };

    ghost view = { λ l. l.items.items };
}

/// At most 64 bytes, as those of a host's frame.
#[derive(Debug, Drop)]
pub struct Bytes {
    pub items: Vec<u8>,
}

impl Model for Bytes {
    ghost use Rattle.std.specs.Prelude.{List, ℕ, length, ◌≤◌};

    ghost Value = { List ℕ };

    ghost view = { λ b. b.items.items };

    ghost invariant = { λ b. length b.items.items ≤ 64 };
}
