use crate::accounts::{Account, Books, account_of};
use crate::diagrams::{Beginning, Diagram, beginning_of};
use crate::hunts::hunt_moves;
use crate::kings::bar_cost;
use crate::orders::pawns_before;
use crate::settings::{CAPTURE, HUNT, NO_PLAN_YET, Setting};
use crate::walls::ground_of;
use crate::wants::{BothWants, Wants};
use board_base::Memory;
use home_ways::Ways;
use pawn_plans::{Camps, PawnCount, Plan, Planner, passing};
use query_base::Query;
use std::alloc::Global;

/// How many counts of pawns are kept.
const KEPT: usize = 1 << 13;

/// What a query is worth: about how dear it is to come to the array from it, and what may come back.
#[derive(Clone, Copy)]
pub struct Worth {
    pub value: u32,
    pub wants: BothWants,
}

#[derive(Clone, Copy)]
struct KeptCount {
    camps: Option<Camps>,
    short: u32,
    pawns: Option<PawnCount>,
}

/// Tells what queries are worth, and keeps what it found out.
#[derive(Drop)]
pub struct Valuer {
    beginning: Beginning,
    ways: Ways,
    planner: Planner,
    counts: Vec<KeptCount>,
}

/// Both sides' accounts.
#[derive(Clone, Copy)]
struct Accounts {
    white: Account,
    black: Account,
}

/// What the plan of the pawns costs more, and whether it wants promoted men as victims.
#[derive(Clone, Copy)]
struct Planned {
    cost: u32,
    victims: bool,
}

const UNPLANNED: Planned = Planned {
    cost: 0,
    victims: false,
};

impl Accounts {
    fn camps(&self) -> Camps {
        Camps {
            own: self.white.camp(),
            other: self.black.camp(),
        }
    }

    fn open_camps(&self) -> Camps {
        Camps {
            own: self.white.open_camp(),
            other: self.black.open_camp(),
        }
    }

    /// What may come back, if the pawns capture so often.
    fn wants(&self, pawns: &PawnCount, planned: &Planned) -> BothWants {
        BothWants {
            white: wants_of(&self.white, pawns.other, planned),
            black: wants_of(&self.black, pawns.own, planned),
        }
    }
}

/// What may come back to a side of whose men so many fall to pawns at least.
fn wants_of(account: &Account, captures: u8, planned: &Planned) -> Wants {
    let is_short = captures > account.camp().officers_lost();
    Wants {
        victims: (is_short || planned.victims) && account.pawns_lost > 0,
        ..account.wants
    }
}

/// How many captures of pawns take pawns at least.
fn shortage(camps: &Camps, pawns: &PawnCount) -> u8 {
    pawns
        .own
        .saturating_sub(camps.other.officers_lost())
        .saturating_add(pawns.other.saturating_sub(camps.own.officers_lost()))
}

/// What the captures and the steps of pawns cost.
fn pawn_cost(setting: &Setting, camps: &Camps, pawns: &PawnCount) -> u32 {
    let captures = u32::from(pawns.own.saturating_add(pawns.other));
    CAPTURE
        .saturating_mul(captures)
        .saturating_add(
            setting
                .short
                .saturating_mul(u32::from(shortage(camps, pawns))),
        )
        .saturating_add(setting.pawn_step.saturating_mul(u32::from(pawns.steps)))
}

/// What a plan costs that has more captures, or more victims that aren't officers, than there must be.
fn plan_cost(setting: &Setting, camps: &Camps, pawns: &PawnCount, captures: u8, others: u8) -> u32 {
    let more = captures.saturating_sub(pawns.own.saturating_add(pawns.other));
    let short = others.saturating_sub(shortage(camps, pawns));
    CAPTURE
        .saturating_mul(u32::from(more))
        .saturating_add(setting.short.saturating_mul(u32::from(short)))
}

/// What it costs that men are far from where they may have captured those who are missing.
fn hunt_cost(accounts: &Accounts, diagram: &Diagram, pawns: &PawnCount) -> u32 {
    let (white, black) = (&diagram.white, &diagram.black);
    HUNT.saturating_mul(hunt_moves(&accounts.white, white, black, pawns.own_free).saturating_add(
        hunt_moves(&accounts.black, black, white, pawns.other_free),
    ))
}

/// What it costs that men bar the kings' ways.
fn king_cost(setting: &Setting, accounts: &Accounts, diagram: &Diagram) -> u32 {
    if setting.king_ways {
        bar_cost(&accounts.white, &diagram.white, &diagram.black).saturating_add(bar_cost(
            &accounts.black,
            &diagram.black,
            &diagram.white,
        ))
    } else {
        0
    }
}

impl Valuer {
    /// A valuer for what leads to this query.
    pub fn new(alloc: Global, query: &Query) -> Result<Valuer, Memory> {
        let none = KeptCount {
            camps: None,
            short: 0,
            pawns: None,
        };
        match vec![in alloc; none; KEPT] {
            Ok(counts) => Ok(Valuer {
                beginning: beginning_of(query),
                ways: Ways::new(alloc)?,
                planner: Planner::new(alloc)?,
                counts,
            }),
            Err(_) => Err(Memory),
        }
    }

    fn accounts(
        &mut self,
        setting: &Setting,
        query: &Query,
        diagram: &Diagram,
    ) -> Option<Accounts> {
        let ground = ground_of(query, diagram);
        let mut books = Books {
            ways: &mut self.ways,
            setting,
            ground,
            origins: self.beginning.white,
        };
        let white = account_of(&mut books, &diagram.white)?;
        books.ground = ground.turned();
        books.origins = self.beginning.black;
        let black = account_of(&mut books, &diagram.black)?;
        Some(Accounts { white, black })
    }

    /// What it costs that pawns are at home before officers who aren't.
    fn order_cost(&self, setting: &Setting, diagram: &Diagram) -> u32 {
        let before = pawns_before(&diagram.white, &self.beginning.white).saturating_add(
            pawns_before(&diagram.black, &self.beginning.black),
        );
        setting.order.saturating_mul(before)
    }

    /// The cheapest captures that bring the pawns home.
    fn count_pawns(&mut self, camps: &Camps, short: u32) -> Option<PawnCount> {
        let place = (camps.key() >> 51) as usize;
        if let Some(kept) = self.counts.get(place) {
            if kept.camps == Some(*camps) && kept.short == short {
                return kept.pawns;
            }
        }
        let pawns = passing(camps, CAPTURE, short);
        if let Some(kept) = self.counts.get_mut(place) {
            *kept = KeptCount {
                camps: Some(*camps),
                short,
                pawns,
            };
        }
        pawns
    }

    /// What the plan of the pawns costs more than its captures must; None if there is no plan.
    fn plan(
        &mut self,
        setting: &Setting,
        accounts: &Accounts,
        pawns: &PawnCount,
    ) -> Result<Option<Planned>, Memory> {
        match self.planner.plan(&accounts.open_camps())? {
            Plan::Impossible => Ok(None),
            Plan::Open => Ok(Some(Planned {
                cost: NO_PLAN_YET,
                victims: false,
            })),
            Plan::Found {
                captures,
                pawns_taken,
                promoted_taken,
            } => {
                let others = pawns_taken.saturating_add(promoted_taken);
                Ok(Some(Planned {
                    cost: plan_cost(setting, &accounts.camps(), pawns, captures, others),
                    victims: promoted_taken > 0,
                }))
            }
        }
    }

    /// What the query is worth; with a plan of its pawns, if it is told so. None if there is no hope.
    pub fn value(
        &mut self,
        setting: &Setting,
        query: &Query,
        diagram: &Diagram,
        planned: bool,
    ) -> Result<Option<Worth>, Memory> {
        let Some(accounts) = self.accounts(setting, query, diagram) else {
            return Ok(None);
        };
        let camps = accounts.camps();
        let Some(pawns) = self.count_pawns(&camps, setting.short) else {
            return Ok(None);
        };
        let plan = if planned && setting.plans {
            self.plan(setting, &accounts, &pawns)?
        } else {
            Some(UNPLANNED)
        };
        let Some(plan) = plan else {
            return Ok(None);
        };
        let value = accounts
            .white
            .cost
            .saturating_add(accounts.black.cost)
            .saturating_add(pawn_cost(setting, &camps, &pawns))
            .saturating_add(self.order_cost(setting, diagram))
            .saturating_add(hunt_cost(&accounts, diagram, &pawns))
            .saturating_add(king_cost(setting, &accounts, diagram))
            .saturating_add(plan.cost);
        Ok(Some(Worth {
            value,
            wants: accounts.wants(&pawns, &plan),
        }))
    }
}
