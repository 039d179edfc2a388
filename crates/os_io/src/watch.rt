//! Looks at whether to stop.
ghost use Rattle.std.specs.Prelude.{◌≡◌, ◌∷◌, [], ◌++◌, ℕ, ◌+◌, ◌-◌, ◌^◌, ◌<◌, Bool, true, false, List};
ghost use Rattle.os_io.specs.Looks.{stops_of};

/// How a search stands: the value of its best point, if it has one, and the bound of all points, if one is at hand; each as a whole number
/// over one.
#[derive(Clone, Copy)]
pub struct Standing {
    pub best: Option<(i128, i128)>,
    pub bound: Option<(i128, i128)>,
}

/// Is asked now and then whether to stop.
pub trait Watch {
    /// How often it said to stop, at most 2^64 - 1.
    ghost stops: { Self → ℕ };

    /// The new watch is the old one after looks with these answers, in order.
    ghost came: { Self → Self → List Bool → Type 0 };

    /// Whether to stop.
    fn look(&mut self) -> bool
        requires { stops self.old < 2 ^ 64 - 1 }
        ensures came { came self.old self.new (result ∷ []) }
        ensures went_on { result ≡ false → stops self.new ≡ stops self.old }
        ensures stopped { result ≡ true → stops self.new ≡ stops self.old + 1 };

    /// Whether it wants to be told how the search stands. That is no look.
    fn asks(&mut self) -> bool
        ensures came { came self.old self.new [] }
        ensures stops { stops self.new ≡ stops self.old };

    /// Is told how the search stands. That is no look either.
    fn hear(&mut self, standing: Standing)
        ensures came { came self.old self.new [] }
        ensures stops { stops self.new ≡ stops self.old };

    /// Law: without a look it stays.
    ghost stays: { (watch : Self) → came watch watch [] };

    /// Law: looks after looks are both, in their order.
    ghost joined: { (a b c : Self) (first second : List Bool) → came a b first → came b c second → came a c (first ++ second) };

    /// Law: the count rises by one with each look that said to stop, and with no other.
    ghost counts: { (old new : Self) (answers : List Bool) → came old new answers → stops new ≡ stops old + stops_of answers };
}
