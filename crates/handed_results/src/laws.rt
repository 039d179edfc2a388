//! What the definitions say together.

ghost use Rattle.std.specs.Prelude.{◌≡◌, ℕ, List};
ghost use Rattle.osol_grammar.specs.declared.options.Options.{Options};
ghost use Rattle.osol_grammar.specs.Meaning.{IsOptionsText};
ghost use Rattle.osol_grammar.specs.Back.{ComesBack};
ghost use Rattle.osol_grammar.specs.Writing.{options_text};
ghost use Rattle.handed_results.specs.declared.handed.Handed as kinds;
ghost use Rattle.handed_results.specs.declared.handed.Handed.TheVariants.{Nothing};
ghost use Rattle.handed_results.specs.Reading.{HandsIn};

/// Law: a text of options hands in one thing.
pub fn options_hand_in_one()
    ensures { (bytes : List ℕ) (o : Options) (h k : kinds.Handed) → IsOptionsText bytes o → HandsIn bytes h → HandsIn bytes k → h ≡ k }
{}

/// Law: the text that options in memory are written as hands in nothing.
pub fn written_options_hand_in_nothing()
    ensures { (o : Options) (h : kinds.Handed) → ComesBack o → HandsIn (options_text o) h → h ≡ Nothing }
{}
