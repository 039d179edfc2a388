//! Tells elements that hold texts.

ghost use Rattle.std.specs.Prelude.{[], OnOk};
ghost use Rattle.tree_grammar.specs.Elements.{none, nodes_events};
ghost use Rattle.osil_grammar.specs.Telling.{Wrote};
ghost use Rattle.osil_grammar.specs.Writing.{holding_text};

use os_io::Memory;
use tree_writing::TextWriter;

/// Tells an element without attributes that holds this text.
pub(crate) fn leaf(w: &mut TextWriter, name: &[u8], text: &[u8]) -> Result<(), Memory>
    ensures { OnOk result (Wrote w.old w.new (nodes_events (holding_text name.now [] text.now none))) }
{
    w.begin(name)?;
    w.chars(text)?;
    w.end(name)
}
