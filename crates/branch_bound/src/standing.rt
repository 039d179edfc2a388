//! How a search stands, told to its watch.
ghost use Rattle.std.specs.Prelude.{◌≡◌, ◌-◌, ◌^◌, ◌<◌, [], ◌∷◌, false};

use crate::carried::Carried;
use crate::found::Found;
use crate::level::Level;
use crate::walk::Walk;
use case_tree::{Branch, is_below, turned};
use fraction::Frac;
use instance::Instance;
use os_io::{Standing, Watch};

/// A number as a whole one over another.
fn parts_of(x: Frac) -> (i128, i128) {
    (x.numer(), x.denom())
}

/// The lesser of two numbers, of which the first may be missing.
fn lesser(least: Option<Frac>, x: Frac) -> Frac {
    match least {
        Some(least) => { if is_below(least, x) { least } else { x } }
        None => x,
    }
}

/// The bound that the case at this place carries, if it carries one.
fn bound_at(list: &[Option<Carried>], place: usize) -> Option<Frac> {
    match list.get(place) {
        Some(Some(carried)) => Some(carried.bound),
        _ => None,
    }
}

/// The least bound that open cases carry: the case at hand, and each second case that is still to come. None where one carries none.
fn least_bound(list: &[Option<Carried>], branches: &[Branch], depth: usize) -> Option<Frac> {
    let mut least = bound_at(list, depth)?;
    for e in 0..depth {
        if let Some(branch) = branches.get(e) {
            if !branch.is_second {
                least = lesser(Some(least), bound_at(list, e + 1)?);
            }
        }
    }
    Some(least)
}

/// The value of a point, if there is one, in this goal.
fn value_of(best: &Option<Found>, goal: u32) -> Option<Frac> {
    match best {
        Some(found) => match found.values.as_slice().get(goal as usize) {
            Some(value) => Some(*value),
            None => None,
        },
        None => None,
    }
}

/// The value of the best point in the level's goal, and the bound of its points, better or not: the least that open cases carry, or the value
/// where that is less, turned back. There is a bound where cases carry theirs.
fn standing_of(instance: &Instance, level: &Level, walk: &Walk, depth: usize) -> Option<Standing> {
    let goal = instance.goals().get(level.goal as usize)?;
    let best = value_of(&walk.best, level.goal);
    let open = least_bound(walk.carried.as_slice(), walk.branches.as_slice(), depth);
    let bound = match open {
        Some(open) => {
            let by_best = match best {
                Some(value) => Some(turned(goal.sense, value)),
                None => None,
            };
            Some(parts_of(turned(goal.sense, lesser(by_best, open))))
        }
        None => None,
    };
    let best = match best {
        Some(value) => Some(parts_of(value)),
        None => None,
    };
    Some(Standing { best, bound })
}

/// Tells a watch how the search stands, where it asks.
fn tell<W: Watch>(watch: &mut W, instance: &Instance, level: &Level, walk: &Walk, depth: usize)
    ensures came { W.came watch.old watch.new [] }
    ensures stops { W.stops watch.new ≡ W.stops watch.old }
{
    if !watch.asks() {
        return;
    }
    let Some(standing) = standing_of(instance, level, walk, depth) else {
        return;
    };
    watch.hear(standing);
}

/// Asks a watch whether to stop before a node, once it is told how the search stands.
pub fn look<W: Watch>(
    watch: &mut W,
    instance: &Instance,
    level: &Level,
    walk: &Walk,
    depth: usize,
) -> bool
    requires { W.stops watch.old < 2 ^ 64 - 1 }
    ensures came { W.came watch.old watch.new (result ∷ []) }
    ensures went_on { result ≡ false → W.stops watch.new ≡ W.stops watch.old }
{
    tell(watch, instance, level, walk, depth);
    watch.look()
}
