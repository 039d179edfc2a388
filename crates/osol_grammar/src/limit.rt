//! How much may be done for a job, and how its result is told.

/// A limit that options set.
#[derive(Clone, Copy)]
pub(crate) enum Limit {
    /// Nodes of the tree of cases.
    Nodes,
    /// Turns of the simplex method.
    Turns,
    /// Rows that rounds add.
    Rounds,
    /// Whether a result's values are told with names.
    Names,
    /// Whether its certificate is told with multipliers of rows alone.
    Form,
    /// Whether a search that is given up has a bound.
    Bound,
}

/// All limits, in the order in which their options are written.
pub(crate) const LIMITS: [Limit; 6] = [
    Limit::Nodes,
    Limit::Turns,
    Limit::Rounds,
    Limit::Names,
    Limit::Form,
    Limit::Bound,
];

/// What is known of a limit: the name of its option, the least and the greatest amount that it may have, the amount that it
/// has where no option says one, and whether its option is also written where it has that amount.
#[derive(Clone, Copy)]
pub(crate) struct LimitRow {
    pub name: &'static [u8],
    pub least: u32,
    pub most: u32,
    pub default: u32,
    pub always: bool,
}

impl Limit {
    ghost use Rattle.std.specs.Prelude.{◌≡◌};
    ghost use Rattle.osol_grammar.specs.Limits as table;

    /// What is known of it.
    pub(crate) fn row(self) -> LimitRow
        ensures name { result.name.now ≡ (table.limit_row self).name }
        ensures least { result.least ≡ (table.limit_row self).least }
        ensures most { result.most ≡ (table.limit_row self).most }
        ensures default { result.default ≡ (table.limit_row self).default }
        ensures always { result.always ≡ (table.limit_row self).always }
    {
        match self {
            Limit::Nodes => LimitRow {
                name: b"nodeLimit",
                least: 1,
                most: 1_000_000,
                default: 10_000,
                always: true,
            },
            Limit::Turns => LimitRow {
                name: b"pivotLimit",
                least: 1,
                most: 100_000_000,
                default: 1_000_000,
                always: true,
            },
            Limit::Rounds => LimitRow {
                name: b"rounds",
                least: 0,
                most: 100,
                default: 0,
                always: false,
            },
            Limit::Names => LimitRow {
                name: b"names",
                least: 0,
                most: 1,
                default: 0,
                always: false,
            },
            Limit::Form => LimitRow {
                name: b"form",
                least: 0,
                most: 1,
                default: 0,
                always: false,
            },
            Limit::Bound => LimitRow {
                name: b"bound",
                least: 0,
                most: 1,
                default: 0,
                always: false,
            },
        }
    }
}
