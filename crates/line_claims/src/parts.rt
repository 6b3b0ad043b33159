ghost use Rattle.std.specs.Prelude.{◌≡◌, ◌≤◌, ◌∷◌, [], MatchOption, length, map};
ghost use Rattle.query_base.specs.declared.claims.Claim.TheVariants.{Illegal};
ghost use Rattle.line_claims.specs.Due.{excluded, is_other, parts_due, parts_of_steps, siblings, with_both};
ghost use Rattle.line_claims.specs.Listing.{AreListed, HasParts};

use crate::claims::LineClaim;
use crate::step_lists::StepList;
use crate::steps_left::StepsLeft;
use board_base::{Castle, Unmove, is_move};
use query_base::{Claim, Query};
use std::marker::Model;
use unmove_gen::{Unmoves, pred};

/// The second is another unmove of the first one's move.
fn is_other(step: &Unmove, u: &Unmove) -> bool
    ensures { result ≡ is_other step.now u.now }
{
    is_move(&Some(step.mv), &u.mv) && (step.captured != u.captured || step.ep != u.ep)
}

/// The parts of a step that say that none of its siblings was the last, as far as they are still due; seen as their list.
#[derive(Drop)]
struct Siblings {
    query: Query,
    step: Unmove,
    left: Unmoves,
}

impl Model for Siblings {
    ghost use Rattle.std.specs.Prelude.{List, map};
    ghost use Rattle.std.specs.List.{All, Contains, filter};
    ghost use Rattle.query_base.specs.Asked.{Asked};
    ghost use Rattle.query_base.specs.declared.claims.Claim.{Claim as AClaim};
    ghost use Rattle.unmove_gen.specs.Listed.{unmoves};
    ghost use Rattle.line_claims.specs.Due.{excluded, is_other};

    ghost Value = { List (AClaim × Asked) };

    ghost view = { λ s. map (excluded s.query) (filter (is_other s.step) s.left) };

    ghost invariant = { λ s. All (Contains (unmoves s.query)) s.left };
}

impl Siblings {
    fn new(query: &Query, step: &Unmove) -> Siblings
        ensures { result ≡ map (excluded query.now) (siblings query.now step.now) }
    {
        Siblings {
            query: *query,
            step: *step,
            left: Unmoves::new(query),
        }
    }

    /// The first part that is left, which then is left no more; None if and only if none is left.
    fn next(&mut self) -> Option<(Claim, Query)>
        ensures { MatchOption result ((self.old ≡ []) × (self.new ≡ [])) (λ part. self.old ≡ part ∷ self.new) }
    {
        while let Some(u) = self.left.next() {
            if is_other(&self.step, &u) {
                return Some((Claim::Illegal, pred(&self.query, &u)));
            }
        }
        None
    }
}

/// The parts that are still due of what was begun: of a claim of two castlings or of a step; seen as their list.
#[derive(Drop)]
struct Begun {
    alone: Option<Query>,
    others: Option<Siblings>,
}

impl Model for Begun {
    ghost use Rattle.std.specs.Prelude.{List, [], ◌++◌, unwrap_or};
    ghost use Rattle.query_base.specs.Asked.{Asked};
    ghost use Rattle.query_base.specs.declared.claims.Claim.{Claim as AClaim};
    ghost use Rattle.line_claims.specs.Begun.{alone_part};

    ghost Value = { List (AClaim × Asked) };

    ghost view = { λ b. alone_part b.alone ++ unwrap_or b.others [] };
}

impl Begun {
    fn nothing() -> Begun
        ensures { result ≡ [] }
    {
        Begun {
            alone: None,
            others: None,
        }
    }

    /// The one part that no game reaches the query.
    fn alone(query: &Query) -> Begun
        ensures { result ≡ (Illegal, query.now) ∷ [] }
    {
        Begun {
            alone: Some(*query),
            others: None,
        }
    }

    /// The parts that say that no sibling of the step was the last.
    fn siblings(query: &Query, step: &Unmove) -> Begun
        ensures { result ≡ map (excluded query.now) (siblings query.now step.now) }
    {
        Begun {
            alone: None,
            others: Some(Siblings::new(query, step)),
        }
    }

    /// The first part that is left, which then is left no more; None if and only if none is left.
    fn next(&mut self) -> Option<(Claim, Query)>
        ensures { MatchOption result ((self.old ≡ []) × (self.new ≡ [])) (λ part. self.old ≡ part ∷ self.new) }
    {
        if let Some(query) = self.alone {
            self.alone = None;
            return Some((Claim::Illegal, query));
        }
        match &mut self.others {
            Some(others) => others.next(),
            None => None,
        }
    }
}

/// The parts of a claim of several steps that are still due, seen as their list: claims of one query each. Where each of them holds,
/// so does the claim.
#[derive(Drop)]
pub struct Due {
    begun: Begun,
    query: Query,
    steps: StepsLeft,
}

impl Model for Due {
    ghost use Rattle.std.specs.Prelude.{List, ◌++◌};
    ghost use Rattle.query_base.specs.Asked.{Asked};
    ghost use Rattle.query_base.specs.declared.claims.Claim.{Claim as AClaim};
    ghost use Rattle.line_claims.specs.Due.{parts_of_steps};
    ghost use Rattle.line_claims.specs.Listing.{AreListed};

    ghost Value = { List (AClaim × Asked) };

    ghost view = { λ d. d.begun ++ parts_of_steps d.query d.steps };

    ghost invariant = { λ d. AreListed d.query d.steps };
}

fn with_both(query: &Query, first: Castle, second: Castle) -> Query
    ensures { result ≡ with_both query.now first second }
{
    let mut both = *query;
    both.held = query.held.with(first).with(second);
    both
}

impl Due {
    /// All parts due of the claim. Of two castlings it is the one part that no game reaches the query with both held. Of each
    /// step in turn, from the first on, they are: that its move was the last of each game that reaches what the steps before it
    /// leave; then, for each other unmove of the same move there, ascending as they are listed, that no game reaches what that one
    /// leaves. Each step is listed, as `unlisted_step` tests. There are at most seven parts to a step.
    /// Only if the query bars a move do parts bar one (`parts_bar_no_move`): those about the query itself.
    pub fn new(query: &Query, claim: &LineClaim) -> Due
        requires { HasParts claim.now query.now }
        ensures parts { result ≡ parts_due claim.now query.now }
        ensures few { length result ≤ 112 }
    {
        match claim {
            LineClaim::NotBoth(first, second) => Due::of_castles(query, *first, *second),
            LineClaim::Line(steps) => Due::of_steps(query, steps),
        }
    }

    fn of_castles(query: &Query, first: Castle, second: Castle) -> Due
        ensures { result ≡ (Illegal, with_both query.now first second) ∷ [] }
    {
        Due {
            begun: Begun::alone(&with_both(query, first, second)),
            query: *query,
            steps: StepsLeft::none(),
        }
    }

    fn of_steps(query: &Query, steps: &StepList) -> Due
        requires { AreListed query.now steps.now }
        ensures parts { result ≡ parts_of_steps query.now steps.now }
        ensures few { length result ≤ 112 }
    {
        Due {
            begun: Begun::nothing(),
            query: *query,
            steps: StepsLeft::of(steps),
        }
    }

    /// The first part that is due, which then is due no more; None if and only if none is.
    pub fn next(&mut self) -> Option<(Claim, Query)>
        ensures { MatchOption result ((self.old ≡ []) × (self.new ≡ [])) (λ part. self.old ≡ part ∷ self.new) }
    {
        if let Some(part) = self.begun.next() {
            return Some(part);
        }
        let Some(step) = self.steps.next() else {
            return None;
        };
        let part = (Claim::Last(step.mv), self.query);
        self.begun = Begun::siblings(&self.query, &step);
        self.query = pred(&self.query, &step);
        Some(part)
    }
}
