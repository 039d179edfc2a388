//! What is known of runs and of searches.
ghost use Rattle.std.specs.Prelude.{◌≡◌, ℕ, ◌+◌, ◌^◌, ◌<◌, ◌≤◌, Bool, false, Option, Some};
ghost use Rattle.evidence.specs.Instance.{Instance, IsInstance, Problem, IsProblem, alone, width, height};
ghost use Rattle.bases.specs.Program.{goal_column};
ghost use Rattle.simplex_rules.specs.Ends.{Terms, Clock, End, TurnsOut};
ghost use Rattle.simplex_rules.specs.Runs.{Moment, To, IsNext, HasNoClash, ComesInRun, Run, IsRun};
ghost use Rattle.search_rules.specs.Search.{Found, Outcome, Search, IsSearchAnswer};
ghost use Rattle.search_rules.specs.Outcomes.{HaveOneRange, IsPlain};
ghost use Rattle.search_rules.specs.Beginnings.{IsAnswerFrom};
ghost use Rattle.no_cycles.specs.Phase.{IsImprovingTurn, AreTurns, HaveSamePlaces, IsSettled, BeginsSettled, HasNoneTwice, came_through};
ghost use Rattle.no_cycles.specs.Beginning.{BeginsFeasible};
ghost use Rattle.no_cycles.specs.Searches.{is_out_of_turns};
ghost use Rattle.no_cycles.specs.Limit.{safe_limit};
ghost use Rattle.no_cycles.specs.Ends.{HasEndsWithin};

/// Law: in the second phase no basis comes twice with the same places: not in turns of it one after the other, and not among
/// all the bases that a run came through (Bland, 1977).
pub fn no_basis_twice()
    ensures turns { (I : Instance) (zeroed : Bool) (t : Terms) (c : Clock) (at : ℕ → Moment) (k : ℕ) → IsInstance I → HasNoClash I → ComesInRun I zeroed t c (at 0) → AreTurns I zeroed t at k → (i j : ℕ) → i < j → j ≤ k → HaveSamePlaces I (at i).statuses (at j).statuses → ⊥ }
    ensures runs { (I : Instance) (zeroed : Bool) (t : Terms) (c d : Clock) (e : End) → IsInstance I → (run : IsRun I zeroed t c e d) → HasNoneTwice I zeroed (came_through run.comes) }
{}

/// Law: the second phase has fewer turns than there are ways for each column to be basic or to have one of three places.
pub fn turns_are_few()
    ensures { (I : Instance) (zeroed : Bool) (t : Terms) (c : Clock) (at : ℕ → Moment) (k : ℕ) → IsInstance I → HasNoClash I → ComesInRun I zeroed t c (at 0) → AreTurns I zeroed t at k → k < 4 ^ goal_column I }
{}

/// Law: a turn of the second phase keeps each basic column within its ends, and where no column is out the next turn is one of the
/// second phase.
pub fn second_phase_stays()
    ensures settles { (I : Instance) (zeroed : Bool) (t : Terms) (c : Clock) (m n : Moment) → IsInstance I → HasNoClash I → ComesInRun I zeroed t c m → IsImprovingTurn I zeroed t m n → IsSettled I zeroed n.statuses }
    ensures goes_on { (I : Instance) (zeroed : Bool) (t : Terms) (m n : Moment) → IsSettled I zeroed m.statuses → IsNext I zeroed t m (To n) → IsImprovingTurn I zeroed t m n }
{}

/// Law: where each row is between its ends at the variables' first values, no column is out at the first basis.
pub fn feasible_beginnings_are_settled()
    ensures { (I : Instance) (zeroed : Bool) → IsInstance I → HasNoClash I → BeginsFeasible I → BeginsSettled I zeroed }
{}

/// Law: where no column is out at the first basis, and the limit of turns leaves room for as many as are enough, a run
/// doesn't end at that limit.
pub fn limit_never_comes()
    ensures { (I : Instance) (zeroed : Bool) (t : Terms) (c d : Clock) → IsInstance I → BeginsSettled I zeroed → c.turns + 4 ^ (width I + height I) ≤ t.turns → Run I zeroed t c TurnsOut d → ⊥ }
{}

/// Law: the search of one goal, without variables that are whole or may be 0 besides, whose first values keep each row between its
/// ends, isn't given up for its turns, where the limit is as many as are enough.
pub fn plain_searches_stay_within_turns()
    ensures { (I : Instance) (t : Terms) (o : Outcome) (c : Clock) → IsInstance I → IsPlain I → HaveOneRange I → BeginsFeasible I → 4 ^ (width I + height I) ≤ t.turns → IsSearchAnswer (alone I) t o c → is_out_of_turns o ≡ false }
{}

/// Law: nor is such a search where the limit is at least the safe one of its program.
pub fn safe_limits_are_enough()
    ensures { (I : Instance) (t : Terms) (o : Outcome) (c : Clock) (l : ℕ) → IsInstance I → IsPlain I → HaveOneRange I → BeginsFeasible I → safe_limit (width I) (height I) ≡ Some l → l ≤ t.turns → IsSearchAnswer (alone I) t o c → is_out_of_turns o ≡ false }
{}

/// Law: and nor is one that begins with a best point, whatever that is.
pub fn safe_limits_are_enough_from_points()
    ensures { (I : Instance) (t : Terms) (start : Option Found) (o : Outcome) (c : Clock) (l : ℕ) → IsInstance I → IsPlain I → HaveOneRange I → BeginsFeasible I → safe_limit (width I) (height I) ≡ Some l → l ≤ t.turns → IsAnswerFrom (alone I) t start o c → is_out_of_turns o ≡ false }
{}

/// Law: a run within a limit of turns has an end: it can't be that it has none. A number that doesn't fit ends it too.
pub fn runs_have_an_end()
    ensures { (I : Instance) (zeroed : Bool) (t : Terms) (c : Clock) → IsInstance I → ((e : End) (d : Clock) → Run I zeroed t c e d → ⊥) → ⊥ }
{}

/// Law: a search has an outcome: it can't be that it has none. Within its limits of nodes, of turns and of cuts each case of each level
/// is closed or divided, or searched anew with a cut, or ends it, where the ends of the variables are no greater than numbers may be.
pub fn searches_have_an_outcome()
    ensures { (P : Problem) (t : Terms) → IsProblem P → HasEndsWithin P.program → ((o : Outcome) (c : Clock) → Search P t o c → ⊥) → ⊥ }
{}
