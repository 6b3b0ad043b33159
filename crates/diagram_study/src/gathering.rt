ghost use Rattle.std.specs.Prelude.{◌≡◌, ◌≢◌, IfOk, false};
ghost use Rattle.std.specs.List.{All, Contains};
ghost use Rattle.unmove_gen.specs.Listed.{unmoves};
ghost use Rattle.claim_findings.specs.Findings.{IsFound, is_proved};
ghost use Rattle.diagram_study.specs.Gathering.{AreGathered, AreSought};

use crate::pairs::{PairFound, agreed_pairs, seek_pairs};
use crate::possible::look_for_ends;
use crate::rights::{RightFound, agreed_rights, open_castlings, seek_rights};
use board_base::UnmoveList;
use claim_findings::{Decided, Finding, Games, Searchers, Subject, agreed, counter};
use line_claims::parts_make_lines_hold;
use query_base::Claim;
use std::alloc::{AllocError, Global};

/// What is found of the claims about a position that isn't proved to be illegal.
#[derive(Drop)]
pub struct Gathered {
    pub illegal: Decided,
    pub rights: Vec<RightFound>,
    pub pairs: Vec<PairFound>,
}

/// What the searches find of each claim, and games for as many as they can.
pub(crate) fn gather(
    searchers: &mut Searchers,
    games: &mut Games,
    subject: &Subject,
    sought: Finding,
    left: &UnmoveList,
) -> Result<Gathered, AllocError>
    requires sought { IsFound subject.now.query Claim.Illegal subject.now.limits.depth subject.now.limits.nodes sought }
    requires unproved { is_proved sought ≡ false }
    requires unlooked { sought ≢ Finding.Countered }
    requires listed { All (Contains (unmoves subject.now.query)) left.now }
    ensures { IfOk result (AreSought subject.now.query subject.now.limits.depth subject.now.limits.nodes games.new.found.items) }
{
    let illegal = counter(searchers, games, subject, &Claim::Illegal, sought)?;
    let rights = seek_rights(searchers, games, subject)?;
    let kept = open_castlings(rights.as_slice());
    let pairs = seek_pairs(searchers, games, subject, kept)?;
    look_for_ends(searchers.alloc, games, &subject.query, left)?;
    Ok(Gathered {
        illegal,
        rights,
        pairs,
    })
}

/// What is found of each claim by all the games.
pub(crate) fn agreed_all(
    alloc: Global,
    games: &Games,
    subject: &Subject,
    gathered: Gathered,
) -> Result<Gathered, AllocError>
    requires sought { AreSought subject.now.query subject.now.limits.depth subject.now.limits.nodes games.now.found.items gathered }
    ensures { IfOk result (AreGathered subject.now.query subject.now.limits.depth subject.now.limits.nodes games.now.found.items) }
{
    parts_make_lines_hold();
    let Gathered {
        illegal,
        rights,
        pairs,
    } = gathered;
    let illegal = agreed(games, subject, &Claim::Illegal, illegal);
    let rights = agreed_rights(alloc, games, subject, rights)?;
    let pairs = agreed_pairs(alloc, games, subject, pairs)?;
    Ok(Gathered {
        illegal,
        rights,
        pairs,
    })
}
