//! Laws of runs of the simplex method.
ghost use Rattle.std.specs.Prelude.{◌≡◌, ◌⊎◌, Bool, List, Option};
ghost use Rattle.evidence.specs.Instance.{Instance, IsInstance};
ghost use Rattle.simplex_rules.specs.declared.columns.Status.{Status};
ghost use Rattle.simplex_rules.specs.Ends.{Terms, Clock, End, AreSound, HaveOneEnd};
ghost use Rattle.simplex_rules.specs.Runs.{Moment, Next, HasNoClash, IsNext, ComesInRun, Run, EndsAtBasis};
ghost use Rattle.simplex_rules.specs.Rules.{Given, AreLegalRules, AreSingleRules, bland};
ghost use Rattle.simplex_rules.specs.declared.names.RuleName.{RuleName};
ghost use Rattle.simplex_rules.specs.NamedRules.{rules_of};
ghost use Rattle.simplex_rules.specs.RuleRuns.{Finish, Ends, Passed, ShownBy, RunBy};
ghost use Rattle.rational.specs.Ratio.{Ratio};

/// Law: what a run ends with is true of its program: a column whose ends pass each other; multipliers by which no point
/// is feasible (Farkas); a relaxed point that reaches the bound which its multipliers show (weak duality); or a relaxed
/// point and a direction along which the goal has no best value.
pub fn runs_are_sound()
    ensures { AreSound Run }
{}

/// Law: a run has one end, at one clock: no other point, multipliers, direction, bound, limit or number that doesn't
/// fit.
pub fn runs_have_one_end()
    ensures { HaveOneEnd Run }
{}

/// Law: what comes after a moment of a run is one.
pub fn moments_have_one_next()
    ensures { (I : Instance) (zeroed : Bool) (t : Terms) (c : Clock) (m : Moment) (a b : Next) → IsInstance I → HasNoClash I → ComesInRun I zeroed t c m → IsNext I zeroed t m a → IsNext I zeroed t m b → a ≡ b }
{}

/// Law: a run ends at one basis, so that what is read off its last dictionary is one thing.
pub fn runs_end_at_one_basis()
    ensures { (I : Instance) (zeroed : Bool) (t : Terms) (c : Clock) (e f : End) (d b : Clock) (ss ts : List Status) → IsInstance I → EndsAtBasis I zeroed t c e d ss → EndsAtBasis I zeroed t c f b ts → ss ≡ ts }
{}

/// Law: by legal rules, whatever they choose, what a run ends with is true of its program.
pub fn runs_by_rules_are_sound()
    ensures { (k : RuleName) (I : Instance) (zeroed : Bool) (t : Terms) (g h : Given) (best : Option Ratio) (c : Clock) (f : Finish) (d : Clock) → IsInstance I → RunBy (rules_of k) I zeroed t g best c f d h → ShownBy zeroed I f }
{}

/// Law: by legal rules none of whose choices has two answers a run has one end, at one clock, and hands on one thing.
pub fn runs_by_rules_have_one_end()
    ensures { (k : RuleName) (I : Instance) (zeroed : Bool) (t : Terms) (g h j : Given) (best : Option Ratio) (c : Clock) (e f : Finish) (d b : Clock) → IsInstance I → RunBy (rules_of k) I zeroed t g best c e d h → RunBy (rules_of k) I zeroed t g best c f b j → (e ≡ f) × (d ≡ b) × (h ≡ j) }
{}

/// Law: the rules of least indices are legal, and none of their choices has two answers; the runs by them are the runs,
/// and no bound ends one.
pub fn runs_are_by_least_indices()
    ensures legal { AreLegalRules bland }
    ensures single { AreSingleRules bland }
    ensures on { (I : Instance) (zeroed : Bool) (t : Terms) (g : Given) (best : Option Ratio) (c : Clock) (e : End) (d : Clock) → Run I zeroed t c e d → (h : Given) × RunBy bland I zeroed t g best c (Ends e) d h }
    ensures back { (I : Instance) (zeroed : Bool) (t : Terms) (g h : Given) (best : Option Ratio) (c : Clock) (f : Finish) (d : Clock) → RunBy bland I zeroed t g best c f d h → (e : End) × (f ≡ Ends e) × Run I zeroed t c e d }
{}
