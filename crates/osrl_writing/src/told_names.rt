//! Names that values are told with.

use items::Items;
use os_io::Text;
use std::alloc::Global;

/// The names of variables and of rows, by their indices. Who stands behind the end of a list has no name.
pub struct NameLists {
    pub variables: Items<Option<Text>>,
    pub rows: Items<Option<Text>>,
}

impl Drop for NameLists {
    fn drop(self) {
        let NameLists {
            variables: _,
            rows: _,
        } = self;
    }
}

impl NameLists {
    ghost use Rattle.std.specs.Prelude.{◌≡◌, ◌↔◌, IsTrue};
    ghost use Rattle.osrl_writing.specs.Labels.{no_names};

    /// No names.
    pub fn none(alloc: Global) -> Self
        ensures { result ≡ no_names }
    {
        NameLists {
            variables: Items::new(alloc),
            rows: Items::new(alloc),
        }
    }

    /// Whether there are none.
    pub fn is_none(&self) -> bool
        ensures { IsTrue result ↔ (self.now ≡ no_names) }
    {
        self.variables.len() == 0 && self.rows.len() == 0
    }
}
