//! The server of links: many connections over one table of jobs, from `listen` to the last line.
//!
//! [`serve`] listens, with so much patience, says so in a line, serves the links that come beside each other and beside workers, gives
//! them back, works off what waits then, and says in a line how many numbers of jobs were given. Its contract is one definition,
//! `IsServerRun`: the host and the port were listened at with the patience of the [`Setup`], and there is one history of moves of the
//! table, step by step from the empty one whose numbers begin as the setup says, in which the moves of each link stand under a number
//! of its own and are its conversation's, those of each worker are its shift's or none, and no others stand;
//! each finish is kept; where a result is shown, the history has a finish before that brought it, for the texts that were sent under
//! the job, and a result that says that a point is optimal, that none is feasible, or that points have no best value, is accepted by
//! the checker from the document's own bytes, and is true; and in the table that is left no job waits.
//!
//! [`serve_stored`] does so over the table that a journal gave (`IsStoredServerRun`), and gives its disk back.
//!
//! How much is served is said by the setup's [`ServeLimits`]. Which way of ending comes when is a table by [`Ending`]
//! (`specs/Serving.antt`). What the clauses say of the whole service is gone through in `docs/HEADLINE.md`.
#![tactic(auto)]

mod ending;
mod lines;
mod server;
mod setup;

pub use ending::Ending;
pub use server::{serve, serve_stored};
pub use server_threads::ServeLimits;
pub use setup::Setup;
