use crate::buckets::Buckets;
use crate::camps::{Camp, Camps, count_crossed};
use crate::children::{Step, add_children};
use crate::matchings::{NONE, fewest_captures};
use crate::seen::Seen;
use board_base::Memory;
use std::alloc::Global;

/// How many steps of a plan are looked at.
const MOST_STEPS: u32 = 40;

/// How many values steps have.
const VALUES: usize = 1024;

const KEPT_PLANS: usize = 1 << 14;

const KEPT_CAPTURES: usize = 1 << 14;

/// Whether there is a plan by which all pawns come home.
#[derive(Clone, Copy, PartialEq, Eq)]
pub enum Plan {
    /// So many captures by pawns, of pawns and of promoted men among them.
    Found {
        captures: u8,
        pawns_taken: u8,
        promoted_taken: u8,
    },
    /// There is none.
    Impossible,
    /// It wasn't found out.
    Open,
}

/// How far camps are from home.
enum Outlook {
    Home,
    Away(u32),
    Hopeless,
}

#[derive(Clone, Copy)]
struct KeptPlan {
    camps: Option<Camps>,
    plan: Plan,
}

#[derive(Clone, Copy)]
struct KeptCaptures {
    pawns: u64,
    files: u8,
    captures: u8,
}

/// Makes plans, and keeps those that it made lately.
#[derive(Drop)]
pub struct Planner {
    plans: Vec<KeptPlan>,
    captures: Vec<KeptCaptures>,
    steps: Vec<Step>,
    children: Vec<Step>,
    open: Buckets,
    seen: Seen,
}

fn place_of(key: u64) -> usize {
    (key >> 50) as usize
}

impl Planner {
    /// A planner without plans.
    pub fn new(alloc: Global) -> Result<Planner, Memory> {
        let no_plan = KeptPlan {
            camps: None,
            plan: Plan::Open,
        };
        let no_captures = KeptCaptures {
            pawns: 0,
            files: 0,
            captures: 0,
        };
        match (
            vec![in alloc; no_plan; KEPT_PLANS],
            vec![in alloc; no_captures; KEPT_CAPTURES],
        ) {
            (Ok(plans), Ok(captures)) => Ok(Planner {
                plans,
                captures,
                steps: Vec::new(alloc),
                children: Vec::new(alloc),
                open: Buckets::new(alloc, VALUES)?,
                seen: Seen::new(alloc, 4096)?,
            }),
            _ => Err(Memory),
        }
    }

    /// The least captures of a side's pawns.
    fn captures(&mut self, camp: &Camp) -> u8 {
        let key = (camp.pawns ^ u64::from(camp.files)).wrapping_mul(0x9e37_79b9_7f4a_7c15);
        if let Some(kept) = self.captures.get(place_of(key)) {
            if kept.pawns == camp.pawns && kept.files == camp.files {
                return kept.captures;
            }
        }
        let captures = fewest_captures(camp.pawns, 0, camp.files, 0, 0).captures;
        if let Some(kept) = self.captures.get_mut(place_of(key)) {
            *kept = KeptCaptures {
                pawns: camp.pawns,
                files: camp.files,
                captures,
            };
        }
        captures
    }

    fn outlook(&mut self, camps: &Camps) -> Outlook {
        let own = self.captures(&camps.own);
        let other = self.captures(&camps.other);
        if own >= NONE || other >= NONE || own > camps.other.lost() || other > camps.own.lost() {
            return Outlook::Hopeless;
        }
        let captures = own.saturating_add(other);
        let short = own
            .saturating_sub(camps.other.officers_lost())
            .saturating_add(other.saturating_sub(camps.own.officers_lost()));
        let crossed = count_crossed(camps);
        let promoted = camps.own.promoted.saturating_add(camps.other.promoted);
        if captures == 0 && crossed == 0 && promoted == 0 {
            return Outlook::Home;
        }
        Outlook::Away(
            u32::from(captures)
                .saturating_mul(6)
                .saturating_add(u32::from(short).saturating_mul(4))
                .saturating_add(crossed.saturating_mul(9))
                .saturating_add(u32::from(promoted).saturating_mul(3)),
        )
    }

    /// Notes a step that is new, and tells a plan if it is the last one.
    fn note(&mut self, step: Step) -> Result<Option<Plan>, Memory> {
        if !self.seen.add(step.camps.key()) {
            return Ok(None);
        }
        match self.outlook(&step.camps) {
            Outlook::Hopeless => Ok(None),
            Outlook::Home => Ok(Some(Plan::Found {
                captures: step.captures,
                pawns_taken: step.pawns_taken,
                promoted_taken: step.promoted_taken,
            })),
            Outlook::Away(far) => {
                let value = far.saturating_mul(2).saturating_add(step.cost);
                let number = self.steps.len().min(u32::MAX as usize) as u32;
                self.open.put(value as usize, number)?;
                self.steps.push(step).map_err(|_| Memory)?;
                Ok(None)
            }
        }
    }

    /// Notes what follows from a step, for the own side and the other.
    fn expand(&mut self, step: &Step) -> Result<Option<Plan>, Memory> {
        for own in [true, false] {
            let viewed = if own { *step } else { turned(step) };
            self.children.clear();
            add_children(&viewed, &mut self.children)?;
            for k in 0..self.children.len() {
                let Some(child) = self.children.get(k).copied() else {
                    break;
                };
                let child = if own { child } else { turned(&child) };
                let plan = self.note(child)?;
                if plan.is_some() {
                    return Ok(plan);
                }
            }
        }
        Ok(None)
    }

    /// The best step that is open is taken.
    fn take(&mut self) -> Option<Step> {
        let value = self.open.lowest()?;
        let number = self.open.take(value, 0)?;
        self.steps.get(number as usize).copied()
    }

    fn make_plan(&mut self, camps: &Camps) -> Result<Plan, Memory> {
        self.steps.clear();
        self.open.clear();
        self.seen.clear();
        let first = Step {
            camps: *camps,
            cost: 0,
            captures: 0,
            pawns_taken: 0,
            promoted_taken: 0,
        };
        if let Some(plan) = self.note(first)? {
            return Ok(plan);
        }
        for _ in 0..MOST_STEPS {
            let Some(step) = self.take() else {
                return Ok(Plan::Impossible);
            };
            if let Some(plan) = self.expand(&step)? {
                return Ok(plan);
            }
        }
        Ok(Plan::Open)
    }

    /// Whether all pawns of these camps can come home by a plan.
    pub fn plan(&mut self, camps: &Camps) -> Result<Plan, Memory> {
        let place = place_of(camps.key());
        if let Some(kept) = self.plans.get(place) {
            if kept.camps == Some(*camps) {
                return Ok(kept.plan);
            }
        }
        let plan = self.make_plan(camps)?;
        if let Some(kept) = self.plans.get_mut(place) {
            *kept = KeptPlan {
                camps: Some(*camps),
                plan,
            };
        }
        Ok(plan)
    }
}

/// The step as the other side sees it.
fn turned(step: &Step) -> Step {
    Step {
        camps: step.camps.turned(),
        ..*step
    }
}
