// Trusted types: TableName, Key, Path.
// Where something stands in the input: a table, or a key of a table.
use std::fmt;

/// A table of the input. Tables of a list are named by their places, from 0.
#[derive(Clone, Copy, Debug)]
pub enum TableName {
    Top,
    Device(u64),
    Cable(u64),
    Host(u64),
    Snapshot,
    Loss,
    Drop(u64),
    Flow(u64),
    Raw(u64),
    Script,
}

/// A key that a table may have.
#[derive(Clone, Copy, Debug)]
pub enum Key {
    Device,
    Cable,
    Host,
    Snapshot,
    Loss,
    Flow,
    Raw,
    Script,
    Name,
    Ports,
    A,
    B,
    At,
    Bits,
    Window,
    Ring,
    Count,
    Retries,
    Credits,
    Version,
    Seed,
    Crossbar,
    Init,
    Notice,
    Drop,
    Link,
    N,
    From,
    To,
    Bytes,
    Hops,
    Hex,
    Entries,
}

/// A key of a table, or an element of the list at this key.
#[derive(Clone, Copy, Debug)]
pub struct Path {
    pub table: TableName,
    pub key: Key,
    pub element: Option<u64>,
}

impl Key {
    ghost use Rattle.std.specs.Prelude.{◌≡◌};
    ghost use Rattle.sl_form.specs.Paths.{key_text};

    /// The key as it is written.
    pub fn text(self) -> &'static str
        ensures { result.now ≡ key_text self }
    {
        match self {
            Key::Device => "device",
            Key::Cable => "cable",
            Key::Host => "host",
            Key::Snapshot => "snapshot",
            Key::Loss => "loss",
            Key::Flow => "flow",
            Key::Raw => "raw",
            Key::Script => "script",
            Key::Name => "name",
            Key::Ports => "ports",
            Key::A => "a",
            Key::B => "b",
            Key::At => "at",
            Key::Bits => "bits",
            Key::Window => "window",
            Key::Ring => "ring",
            Key::Count => "count",
            Key::Retries => "retries",
            Key::Credits => "credits",
            Key::Version => "version",
            Key::Seed => "seed",
            Key::Crossbar => "crossbar",
            Key::Init => "init",
            Key::Notice => "notice",
            Key::Drop => "drop",
            Key::Link => "link",
            Key::N => "n",
            Key::From => "from",
            Key::To => "to",
            Key::Bytes => "bytes",
            Key::Hops => "hops",
            Key::Hex => "hex",
            Key::Entries => "entries",
        }
    }
}

impl Path {
    ghost use Rattle.std.specs.Prelude.{◌≡◌};
    ghost use Rattle.sl_form.specs.Paths.{at, element};

    /// A key of a table.
    pub fn at(table: TableName, key: Key) -> Path
        ensures { result ≡ at table key }
    {
        Path {
            table,
            key,
            element: None,
        }
    }

    /// An element, from 0, of the list at a key.
    pub fn element(table: TableName, key: Key, index: u64) -> Path
        ensures { result ≡ element table key index }
    {
        Path {
            table,
            key,
            element: Some(index),
        }
    }
}

impl fmt::Display for TableName {
    ghost use Rattle.std.specs.Prelude.{Some};
    ghost use Rattle.sl_form.specs.Paths.{table_text};

    ghost output = { λ t. Some (table_text t) };

    fn fmt<W: fmt::Write>(&self, f: &mut fmt::Formatter<W>) -> fmt::Result {
        match *self {
            TableName::Top => write!(f, "top"),
            TableName::Device(i) => write!(f, "device.{i}"),
            TableName::Cable(i) => write!(f, "cable.{i}"),
            TableName::Host(i) => write!(f, "host.{i}"),
            TableName::Snapshot => write!(f, "snapshot"),
            TableName::Loss => write!(f, "loss"),
            TableName::Drop(i) => write!(f, "loss.drop.{i}"),
            TableName::Flow(i) => write!(f, "flow.{i}"),
            TableName::Raw(i) => write!(f, "raw.{i}"),
            TableName::Script => write!(f, "script"),
        }
    }
}

impl fmt::Display for Key {
    ghost use Rattle.std.specs.Prelude.{Some};
    ghost use Rattle.sl_form.specs.Paths.{key_text};

    ghost output = { λ k. Some (key_text k) };

    fn fmt<W: fmt::Write>(&self, f: &mut fmt::Formatter<W>) -> fmt::Result {
        let key = *self;
        let text = key.text();
        write!(f, "{text}")
    }
}

/// What stands before a key of a table.
#[derive(Clone, Copy)]
struct BeforeKey {
    table: TableName,
}

impl fmt::Display for BeforeKey {
    ghost use Rattle.std.specs.Prelude.{Some};
    ghost use Rattle.sl_form.specs.Paths.{before_key};

    ghost output = { λ b. Some (before_key b.table) };

    fn fmt<W: fmt::Write>(&self, f: &mut fmt::Formatter<W>) -> fmt::Result {
        let table = self.table;
        match table {
            TableName::Top => Ok(()),
            _ => write!(f, "{table}."),
        }
    }
}

impl fmt::Display for Path {
    ghost use Rattle.std.specs.Prelude.{Some};
    ghost use Rattle.sl_form.specs.Paths.{path_text};

    ghost output = { λ p. Some (path_text p) };

    fn fmt<W: fmt::Write>(&self, f: &mut fmt::Formatter<W>) -> fmt::Result {
        let before = BeforeKey { table: self.table };
        let key = self.key;
        match self.element {
            None => write!(f, "{before}{key}"),
            Some(i) => write!(f, "{before}{key}.{i}"),
        }
    }
}
