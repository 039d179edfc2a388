//! A session: one connection over a table of jobs of its own, whose numbers begin with 1.
//!
//! [`serve_session`] serves the requests of an input and runs the jobs that are sent or entered, one at a time, behind the
//! answers. It makes its moves by the one seat of a new desk, which is closed at the end. Its contract is one definition,
//! `IsSession`: the moves of the table are those of this conversation and no others, step by step from that empty table; each finish is
//! kept; and where a result is shown, the table's history has a finish before that brought it, for the texts that were sent under the
//! job, and a result that says that a point is optimal, that none is feasible, or that points have no best value, is accepted by the
//! checker from the document's own bytes, and is true. That last part holds of every history of solved jobs, whoever makes its
//! moves: [`job_solver::shown_documents_are_proved`].
//!
//! [`serve_stored_session`] makes its moves at a table whose effects a journal keeps: each is made once its effect is stored, and a
//! call whose effect isn't is answered `Server.Disk`. What the journal then keeps is such that it opens again
//! ([`journals_stay_sound`]), whoever makes the moves of its table.
#![tactic(auto)]

mod by_seat;
mod laws;
mod session;
mod stored;

pub use laws::journals_stay_sound;
pub use session::serve_session;
pub use stored::serve_stored_session;
