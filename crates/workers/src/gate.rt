//! What is passed before each look.

ghost use Rattle.std.specs.Prelude.{◌≡◌};
ghost use Rattle.workers.specs.Gates.{looks_with, look_number};

use desk::LentSeat;
use effects::NotStored;
use job_table::moves::{Move, MoveKind, is_answered};
use job_table::{Mover, MoverWatch, Verdicts};
use std::marker::PhantomData;

/// Is passed before each look at whether a job is to stop.
pub trait Gate {
    ghost use Rattle.std.specs.Prelude.{ℕ, List, [], ◌∷◌, ◌++◌};

    /// The new gate is the old one after it was passed before looks with these numbers, in order.
    ghost passed: { Self → Self → List ℕ → Type 0 };

    /// The looks at one job are numbered from 1, and all past the greatest number have that one.
    fn pass(&mut self, look: u64)
        ensures { passed self.old self.new (look ∷ []) };

    /// Law: who isn't passed stays.
    ghost stays: { (gate : Self) → passed gate gate [] };

    /// Law: looks after looks are both, in their order.
    ghost joins: { (a b c : Self) (first second : List ℕ) → passed a b first → passed b c second → passed a c (first ++ second) };
}

/// A gate that is open.
#[derive(Drop)]
pub struct OpenGate;

impl Gate for OpenGate {
    ghost passed = { λ _ _ _. Unit {0} };

    fn pass(&mut self, _look: u64) {}

    ghost stays = { λ _. tt };

    ghost joins = { λ _ _ _ _ _ _ _. tt };
}

/// One who makes moves, with a gate before each look. What the moves are, the gate doesn't change.
pub struct Gated<'a, V: Verdicts, C: Mover<V>, G> {
    pub mover: C,
    pub gate: &'a mut G,
    /// How many looks were made since a claim or an enter last gave a job.
    pub looks: u64,
    pub verdicts: PhantomData<V>,
}

/// A watch that asks a desk for one job, with a gate before each look.
pub type DeskWatch<'a, 'b, J, R, G> = MoverWatch<'a, J, Gated<'b, J, LentSeat<'b, J, R>, G>>;

/// How many looks at a job there are with a move of this kind.
fn count_with(looks: u64, kind: MoveKind) -> u64
    ensures { result ≡ looks_with looks kind }
{
    match kind {
        MoveKind::Looks => looks.saturating_add(1),
        MoveKind::Gives => 0,
        MoveKind::Else => looks,
    }
}

/// Passes the gate, where the move is a look.
fn pass_before<G: Gate>(gate: &mut G, look: u64, kind: MoveKind)
    ensures { G.passed gate.old gate.new (look_number look kind) }
{
    if let MoveKind::Looks = kind {
        gate.pass(look);
    }
}

impl<'a, V: Verdicts, C: Mover<V>, G: Gate> Mover<V> for Gated<'a, V, C, G> {
    ghost use Rattle.std.specs.Prelude.{◌≡◌};
    ghost use Rattle.std.proofs.Common.{refl, ◌∙◌};
    ghost use Rattle.workers.specs.Gates.{look_numbers, looks_counted, passed_then, looks_counted_then};

    /// The same gate is lent, these moves were made, and the gate was passed before each look among them.
    ghost did = { λ x y es. (y.gate.ghost_name ≡ x.gate.ghost_name) × C.did x.mover y.mover es × G.passed x.gate.now y.gate.now (look_numbers x.looks es) × (y.looks ≡ looks_counted x.looks es) };

    ghost left = { λ x r. C.left x.mover r };

    fn make<M: Move<V>>(&mut self, step: M) -> Result<M::Answer, NotStored> {
        let kind = step.kind();
        let looks = count_with(self.looks, kind);
        pass_before(&mut *self.gate, looks, kind);
        let answer = self.mover.make(step);
        if is_answered::<V, M>(&answer) {
            self.looks = looks;
        }
        answer
    }

    ghost stays = { λ x. (refl, C.stays x.mover, G.stays x.gate.now, refl) };

    ghost joins = { λ x y z a b p q. (q.0 ∙ p.0, C.joins x.mover y.mover z.mover a b p.1 q.1, passed_then (G.passed x.gate.now y.gate.now) (G.passed y.gate.now z.gate.now) (G.passed x.gate.now z.gate.now) (G.joins x.gate.now y.gate.now z.gate.now) x.looks y.looks a b p.3 p.2 q.2, looks_counted_then x.looks y.looks z.looks a b p.3 q.3) };
}
