//! What the parts of a claim's certificate hold.

ghost use Rattle.std.specs.Prelude.{◌≡◌, ◌↔◌, IsTrue, IfOk, OnOk, cond, None, Some, [], option_map};
ghost use Rattle.certificate.specs.declared.claims.Claim.TheVariants.{Infeasible};
ghost use Rattle.osrl_grammar.specs.ParseState.{nothing_held, emptied};
ghost use Rattle.osrl_grammar.specs.Saying as saying;
ghost use Rattle.osrl_grammar.specs.Failing.{MayHoldItems};
ghost use Rattle.osrl_grammar.specs.Adding.{with_tree_item};
ghost use Rattle.osrl_grammar.specs.Leaving.{with_part};
ghost use Rattle.osrl_grammar.specs.Stepping.{IsCounted, ReadsItem, ReadsNumber};
ghost use Rattle.osrl_writing.specs.declared.parts.Part.TheVariants as parts;

use crate::item_reading::{is_level_but, misread, read_cause, read_round, read_tree_item};
use crate::numbers::read_exact;
use crate::parts::{Misread, TreeItem};
use certificate::{Cause, Cert, Certs, Claim, Nodes, Point, ProvedBound, Ray, Rounds, Values};
use fraction::Frac;
use items::Items;
use osrl_writing::{Claiming, Part};
use std::alloc::{AllocError, Global};
use std::mem;

/// The most levels that are held.
const MOST_LEVELS: usize = 16_777_216;

/// The parts of a certificate that have begun, and their items: of its trees the nodes of the latest level, and the trees
/// of the levels before it.
pub(crate) struct Held {
    pub has_point: bool,
    pub has_value: bool,
    pub has_ray: bool,
    pub has_cause: bool,
    pub has_bound: bool,
    pub has_rounds: bool,
    pub has_tree: bool,
    pub point: Point,
    pub values: Values,
    pub ray: Ray,
    pub causes: Items<Cause>,
    pub bounds: Items<Frac>,
    pub rounds: Rounds,
    pub levels: Certs,
    pub tree: Nodes,
}

impl Drop for Held {
    fn drop(self) {
        let Held {
            has_point: _,
            has_value: _,
            has_ray: _,
            has_cause: _,
            has_bound: _,
            has_rounds: _,
            has_tree: _,
            point: _,
            values: _,
            ray: _,
            causes: _,
            bounds: _,
            rounds: _,
            levels: _,
            tree: _,
        } = self;
    }
}

/// Adds a number, if the text is one.
fn push_number(numbers: &mut Items<Frac>, text: &[u8]) -> Result<Result<(), Misread>, AllocError>
    ensures { ReadsNumber text.now numbers.old numbers.new result }
{
    match read_exact(text) {
        Ok(number) => {
            numbers.push(number)?;
            Ok(Ok(()))
        }
        Err(unread) => Ok(Err(misread(unread))),
    }
}

/// The one of these, if there is just one.
fn only<T: Copy>(values: &[T]) -> Option<T>
    ensures { result ≡ saying.only values.now }
{
    match values {
        [value] => Some(*value),
        _ => None,
    }
}

/// Whether so many items may stand in a part.
fn may_hold(part: Part, count: usize) -> bool
    ensures { IsTrue result ↔ MayHoldItems part count }
{
    match part {
        Part::Point | Part::Ray | Part::Rounds => true,
        Part::Value | Part::Tree => count > 0,
        Part::Cause | Part::Bound => count == 1,
    }
}

/// This, if it is so.
fn when<T: Drop>(holds: bool, value: T) -> Option<T>
    ensures { result ≡ saying.when holds value }
{
    if holds { Some(value) } else { None }
}

/// The certificates of all levels, of which the first has the rounds, where there is a tree.
fn trees(
    alloc: Global,
    has_tree: bool,
    rounds: Rounds,
    levels: Certs,
    tree: Nodes,
) -> Result<Certs, AllocError>
    ensures { IfOk result (λ cs. cs ≡ cond has_tree (saying.certs rounds levels tree) []) }
{
    if !has_tree {
        return Ok(Certs::new(alloc));
    }
    let mut certs = levels.into_vec();
    certs.push(Cert {
        rounds: Rounds::new(alloc),
        nodes: tree,
    })?;
    certs[0].rounds = rounds;
    Ok(Items::of(certs))
}

/// The claim that a point is optimal, if its parts are there.
fn optimal(point: Option<Point>, values: Option<Values>, certs: Option<Certs>) -> Option<Claim>
    ensures { result ≡ saying.optimal point values certs }
{
    let point = point?;
    let values = values?;
    let certs = certs?;
    Some(Claim::Optimal {
        point,
        values,
        certs,
    })
}

/// The claim that no point is feasible, if its part is there.
fn infeasible(cert: Option<Cert>) -> Option<Claim>
    ensures { result ≡ option_map Infeasible cert }
{
    match cert {
        Some(cert) => Some(Claim::Infeasible { cert }),
        None => None,
    }
}

/// The bound, if its number and its tree are there, where one is told.
fn bound_of(
    has_bound: bool,
    number: Option<Frac>,
    cert: Option<Cert>,
) -> Option<Option<ProvedBound>>
    ensures { result ≡ cond has_bound (saying.bounded number cert) (Some None) }
{
    if !has_bound {
        return Some(None);
    }
    let number = number?;
    let cert = cert?;
    Some(Some(ProvedBound { number, cert }))
}

/// The claim of nothing but perhaps a bound, if its parts are there.
fn unsure(cause: Option<Cause>, bound: Option<Option<ProvedBound>>) -> Option<Claim>
    ensures { result ≡ saying.unsure cause bound }
{
    let cause = cause?;
    let bound = bound?;
    Some(Claim::Unsure { cause, bound })
}

/// The claim that points have no best value, if its parts are there.
fn unbounded(
    point: Option<Point>,
    values: Option<Values>,
    certs: Certs,
    ray: Option<Ray>,
) -> Option<Claim>
    ensures { result ≡ saying.unbounded point values certs ray }
{
    let point = point?;
    let values = values?;
    let ray = ray?;
    Some(Claim::Unbounded {
        point,
        values,
        certs,
        ray,
    })
}

/// The claim of the best point so far, if its parts are there.
fn best_so_far(
    point: Option<Point>,
    values: Option<Values>,
    cause: Option<Cause>,
    bound: Option<Option<ProvedBound>>,
) -> Option<Claim>
    ensures { result ≡ saying.best_so_far point values cause bound }
{
    let point = point?;
    let values = values?;
    let cause = cause?;
    let bound = bound?;
    Some(Claim::BestSoFar {
        point,
        values,
        cause,
        bound,
    })
}

impl Held {
    /// No part has begun.
    pub(crate) fn new(alloc: Global) -> Self
        ensures { result ≡ nothing_held }
    {
        Held {
            has_point: false,
            has_value: false,
            has_ray: false,
            has_cause: false,
            has_bound: false,
            has_rounds: false,
            has_tree: false,
            point: Point::new(alloc),
            values: Values::new(alloc),
            ray: Ray::new(alloc),
            causes: Items::new(alloc),
            bounds: Items::new(alloc),
            rounds: Rounds::new(alloc),
            levels: Certs::new(alloc),
            tree: Nodes::new(alloc),
        }
    }

    /// Lets all items go, and keeps in mind whether a bound was told.
    pub(crate) fn empty(&mut self, alloc: Global)
        ensures { self.new ≡ emptied self.old }
    {
        let has_bound = self.has_bound;
        *self = Held::new(alloc);
        self.has_bound = has_bound;
    }

    /// Whether a part has begun.
    pub(crate) fn has(&self, part: Part) -> bool
        ensures { result ≡ saying.has self.now part }
    {
        match part {
            Part::Point => self.has_point,
            Part::Value => self.has_value,
            Part::Ray => self.has_ray,
            Part::Cause => self.has_cause,
            Part::Bound => self.has_bound,
            Part::Rounds => self.has_rounds,
            Part::Tree => self.has_tree,
        }
    }

    /// Whether a part has as many items as it may.
    fn may_stand(&self, part: Part) -> bool
        ensures { IsTrue result ↔ MayHoldItems part (saying.items self.now part) }
    {
        match part {
            Part::Point => may_hold(part, self.point.len()),
            Part::Value => may_hold(part, self.values.len()),
            Part::Ray => may_hold(part, self.ray.len()),
            Part::Cause => may_hold(part, self.causes.len()),
            Part::Bound => may_hold(part, self.bounds.len()),
            Part::Rounds => may_hold(part, self.rounds.len()),
            Part::Tree => self.levels.len() > 0 || self.tree.len() > 0,
        }
    }

    /// Begins a part.
    pub(crate) fn begin(&mut self, part: Part)
        ensures { self.new ≡ with_part part self.old }
    {
        match part {
            Part::Point => self.has_point = true,
            Part::Value => self.has_value = true,
            Part::Ray => self.has_ray = true,
            Part::Cause => self.has_cause = true,
            Part::Bound => self.has_bound = true,
            Part::Rounds => self.has_rounds = true,
            Part::Tree => self.has_tree = true,
        }
    }

    /// Adds a round, if the text is one.
    fn push_round(&mut self, alloc: Global, text: &[u8]) -> Result<Result<(), Misread>, AllocError>
        ensures read { ReadsItem parts.Rounds text.now self.old self.new result }
        ensures bound { OnOk result (self.new.has_bound ≡ self.old.has_bound) }
    {
        match read_round(alloc, text)? {
            Ok(round) => {
                self.rounds.push(round)?;
                Ok(Ok(()))
            }
            Err(misread) => Ok(Err(misread)),
        }
    }

    /// Adds a node to the latest level, or begins one behind it.
    fn push_item(&mut self, alloc: Global, item: TreeItem) -> Result<(), AllocError>
        ensures added { OnOk result (self.new ≡ with_tree_item item self.old) }
        ensures bound { OnOk result (self.new.has_bound ≡ self.old.has_bound) }
    {
        match item {
            TreeItem::Node(node) => self.tree.push(node),
            TreeItem::Level(_) => {
                let nodes = mem::replace(&mut self.tree, Nodes::new(alloc));
                self.levels.push(Cert {
                    rounds: Rounds::new(alloc),
                    nodes,
                })
            }
        }
    }

    /// Adds an item of a tree, if the text is one and begins no level out of order.
    fn push_tree_item(
        &mut self,
        alloc: Global,
        text: &[u8],
    ) -> Result<Result<(), Misread>, AllocError>
        ensures read { ReadsItem parts.Tree text.now self.old self.new result }
        ensures bound { OnOk result (self.new.has_bound ≡ self.old.has_bound) }
    {
        if self.levels.len() > MOST_LEVELS {
            return Err(AllocError);
        }
        if is_level_but(text, self.levels.len() as u32 + 2) {
            return Ok(Err(Misread::NoShape));
        }
        match read_tree_item(alloc, text)? {
            Ok(item) => {
                self.push_item(alloc, item)?;
                Ok(Ok(()))
            }
            Err(misread) => Ok(Err(misread)),
        }
    }

    /// Adds a cause, if the text is one.
    fn push_cause(&mut self, text: &[u8]) -> Result<Result<(), Misread>, AllocError>
        ensures read { ReadsItem parts.Cause text.now self.old self.new result }
        ensures bound { OnOk result (self.new.has_bound ≡ self.old.has_bound) }
    {
        match read_cause(text) {
            Ok(cause) => {
                self.causes.push(cause)?;
                Ok(Ok(()))
            }
            Err(misread) => Ok(Err(misread)),
        }
    }

    /// Adds an item of a part, or tells what is wrong with its text.
    pub(crate) fn add(
        &mut self,
        alloc: Global,
        part: Part,
        text: &[u8],
    ) -> Result<Result<(), Misread>, AllocError>
        ensures read { ReadsItem part text.now self.old self.new result }
        ensures bound { OnOk result (self.new.has_bound ≡ self.old.has_bound) }
    {
        match part {
            Part::Point => push_number(&mut self.point, text),
            Part::Value => push_number(&mut self.values, text),
            Part::Ray => push_number(&mut self.ray, text),
            Part::Cause => self.push_cause(text),
            Part::Bound => push_number(&mut self.bounds, text),
            Part::Rounds => self.push_round(alloc, text),
            Part::Tree => self.push_tree_item(alloc, text),
        }
    }

    /// Whether a part hasn't begun, or has as many items as it may.
    pub(crate) fn is_counted(&self, part: Part) -> bool
        ensures { IsTrue result ↔ IsCounted self.now part }
    {
        !self.has(part) || self.may_stand(part)
    }

    /// The claim of a solution with such a status, if all parts are there that it needs.
    pub(crate) fn claim(
        self,
        alloc: Global,
        claiming: Claiming,
    ) -> Result<Option<Claim>, AllocError>
        ensures { IfOk result (λ c. c ≡ saying.claim_as self claiming) }
    {
        let Held {
            has_point,
            has_value,
            has_ray,
            has_cause: _,
            has_bound,
            has_rounds: _,
            has_tree,
            point,
            values,
            ray,
            causes,
            bounds,
            rounds,
            levels,
            tree,
        } = self;
        let point = when(has_point, point);
        let values = when(has_value, values);
        let cause = only(causes.as_slice());
        match claiming {
            Claiming::Optimal => {
                let certs = trees(alloc, has_tree, rounds, levels, tree)?;
                Ok(optimal(point, values, when(has_tree, certs)))
            }
            Claiming::Infeasible => {
                let nodes = tree;
                Ok(infeasible(when(has_tree, Cert { rounds, nodes })))
            }
            Claiming::Unbounded => {
                let certs = trees(alloc, has_tree, rounds, levels, tree)?;
                Ok(unbounded(point, values, certs, when(has_ray, ray)))
            }
            Claiming::BestSoFar => {
                let nodes = tree;
                let cert = when(has_tree, Cert { rounds, nodes });
                let bound = bound_of(has_bound, only(bounds.as_slice()), cert);
                Ok(best_so_far(point, values, cause, bound))
            }
            Claiming::Unsure => {
                let nodes = tree;
                let cert = when(has_tree, Cert { rounds, nodes });
                let bound = bound_of(has_bound, only(bounds.as_slice()), cert);
                Ok(unsure(cause, bound))
            }
        }
    }
}
