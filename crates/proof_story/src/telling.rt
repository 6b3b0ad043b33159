//! How a story is made: nodes that are told alike stand together, and what was told before is referred to.

use crate::bundles::bundles_of;
use crate::letters::{Letters, copied};
use crate::rendering::push_bundles;
use crate::stories::{Bundle, Paragraph, Point, Said};
use crate::trees::{Tree, last_of, tree_of};
use board_base::{Unmove, cmp_unmove};
use query_base::Query;
use std::alloc::{AllocError, Global};
use std::cmp::Ordering;
use std::collections::HashMap;

/// How many retractions deep a story goes at most.
const DEPTH: usize = 300;
/// What is shorter is told again.
const SHORT: usize = 60;
/// The retractions of `Every other move` have more letters than this, and are three at least.
const FEW_LETTERS: usize = 40;
/// How many paragraphs with the same words are looked at as those to refer to.
const CANDIDATES: usize = 64;

/// Children of one node that are told alike.
#[derive(Drop)]
struct Group {
    class: usize,
    kids: Vec<usize>,
}

/// A node that is told in full, and the place of its paragraph.
#[derive(Clone, Copy)]
struct Full {
    node: usize,
    place: usize,
}

/// A paragraph to refer to, and the children in which a node differs.
#[derive(Drop)]
struct But {
    place: usize,
    kids: Vec<usize>,
}

/// How a group of children is told.
#[derive(Clone, Copy)]
struct Form {
    /// As every other move.
    is_rest: bool,
    /// As the only group below a paragraph.
    is_alone: bool,
    /// By a reference without more.
    is_reference: bool,
}

/// A story that is being told.
#[derive(Drop)]
struct Teller<'a> {
    alloc: Global,
    points: &'a [Point],
    tree: Tree,
    story: Vec<Paragraph>,
    /// Where a class is told in words.
    told: HashMap<usize, usize>,
    /// The nodes that are told in full, by their words.
    full: HashMap<usize, Vec<Full>>,
}

impl<'a> Teller<'a> {
    /// What is said of a node; nothing if there is no such node.
    fn body(&self, node: usize) -> &'a [u8] {
        match self.points.get(node) {
            None => b"",
            Some(point) => point.body.text(),
        }
    }

    /// The children, those together that are told alike, in the order of the first of each.
    fn groups(&self, kids: &[usize]) -> Result<Vec<Group>, AllocError> {
        let mut groups: Vec<Group> = Vec::new(self.alloc);
        let mut places: HashMap<usize, usize> = HashMap::new(self.alloc);
        for kid in kids {
            let class = self.tree.at(*kid).class;
            match places.get(&class) {
                Some(place) => {
                    if let Some(group) = groups.get_mut(*place) {
                        group.kids.push(*kid)?;
                    }
                }
                None => {
                    places.insert(class, groups.len())?;
                    let mut own = Vec::new(self.alloc);
                    own.push(*kid)?;
                    groups.push(Group { class, kids: own })?;
                }
            }
        }
        Ok(groups)
    }

    /// The moves by which these children of one node are reached.
    fn bundles(&self, kids: &[usize]) -> Result<Vec<Bundle>, AllocError> {
        match kids.get(0) {
            None => Ok(Vec::new(self.alloc)),
            Some(first) => match self.points.get(*first) {
                None => Ok(Vec::new(self.alloc)),
                Some(point) => bundles_of(self.alloc, self.points, &point.whence.board, kids),
            },
        }
    }

    /// How many letters the retractions of a group have.
    fn letters(&self, group: &Group) -> Result<usize, AllocError> {
        let bundles = self.bundles(group.kids.as_slice())?;
        let mut text = Vec::new(self.alloc);
        if let Some(first) = group.kids.as_slice().get(0) {
            if let Some(point) = self.points.get(*first) {
                push_bundles(&point.whence.board, bundles.as_slice(), &mut text)?;
            }
        }
        Ok(text.len())
    }

    /// The place of the group that is told last, as every other move.
    fn rest(&self, groups: &[Group]) -> Result<Option<usize>, AllocError> {
        if groups.len() < 2 {
            return Ok(None);
        }
        let mut best = None;
        let mut most = FEW_LETTERS;
        for i in 0..groups.len() {
            if groups[i].kids.len() >= 3 {
                let letters = self.letters(&groups[i])?;
                if letters > most {
                    most = letters;
                    best = Some(i);
                }
            }
        }
        Ok(best)
    }

    /// The children of a node that another lacks or tells otherwise; both lists are in the order of the retractions.
    fn differing(&self, kids: &[usize], others: &[usize]) -> Result<Vec<usize>, AllocError> {
        let mut left = Vec::new(self.alloc);
        let mut k: usize = 0;
        for kid in kids {
            for _ in k..others.len() {
                if !self.is_before(others, k, *kid) {
                    break;
                }
                k = k.saturating_add(1);
            }
            if !self.is_told_so(others, k, *kid) {
                left.push(*kid)?;
            }
        }
        Ok(left)
    }

    /// How the retractions of two nodes are ordered.
    fn order(&self, a: usize, b: usize) -> Ordering {
        match (last_of(self.points, a), last_of(self.points, b)) {
            (Some(u), Some(v)) => cmp_unmove(&u, &v),
            _ => Ordering::Greater,
        }
    }

    /// Whether at this place stands a node whose retraction comes before the child's.
    fn is_before(&self, others: &[usize], k: usize, kid: usize) -> bool {
        match others.get(k) {
            None => false,
            Some(other) => self.order(*other, kid) == Ordering::Less,
        }
    }

    /// Whether at this place stands a node that has the child's retraction and is told as the child is.
    fn is_told_so(&self, others: &[usize], k: usize, kid: usize) -> bool {
        match others.get(k) {
            None => false,
            Some(other) => {
                self.order(*other, kid) == Ordering::Equal
                    && self.tree.at(*other).class == self.tree.at(kid).class
            }
        }
    }

    /// About how many letters these children take.
    fn cost(&self, kids: &[usize]) -> Result<usize, AllocError> {
        let groups = self.groups(kids)?;
        let mut cost: usize = 0;
        for group in groups.as_slice() {
            if let Some(first) = group.kids.as_slice().get(0) {
                let size = self.tree.at(*first).size.min(80);
                cost = cost
                    .saturating_add(size)
                    .saturating_add(self.letters(group)?);
            }
        }
        Ok(cost)
    }

    /// The paragraph as in which the node is told with the fewest letters, if that saves some.
    fn but(&self, node: usize, kids: &[usize]) -> Result<Option<But>, AllocError> {
        let mut best: Option<But> = None;
        let mut least = self.cost(kids)?;
        let words = self.tree.at(node).words;
        if let Some(list) = self.full.get(&words) {
            for full in list.as_slice() {
                let others = self.tree.kids(self.alloc, full.node)?;
                let left = self.differing(kids, others.as_slice())?;
                if left.len() < kids.len() {
                    let cost = if left.len() == 0 {
                        0
                    } else {
                        self.cost(left.as_slice())?.saturating_add(SHORT)
                    };
                    if cost < least {
                        least = cost.saturating_sub(SHORT);
                        best = Some(But {
                            place: full.place,
                            kids: left,
                        });
                    }
                }
            }
        }
        Ok(best)
    }

    /// Whether the last paragraph is this one, which says what follows in words of one line.
    fn is_open(&self, place: usize) -> bool {
        if place == 0 || place.saturating_add(1) != self.story.len() {
            return false;
        }
        match self.story.get(place) {
            None => false,
            Some(paragraph) => match &paragraph.said {
                Said::As(_) => true,
                Said::Words(words) => words.text().iter().all(|letter| *letter != b'\n'),
            },
        }
    }

    /// Whether the last paragraph only refers to another, and stands right below the one at a place.
    fn is_reference(&self, above: usize) -> bool {
        let last = self.story.len().saturating_sub(1);
        let is_below = match self.story.get(above) {
            None => false,
            Some(parent) => parent.below.last() == Some(&last),
        };
        match self.story.last() {
            None => false,
            Some(paragraph) => match paragraph.said {
                Said::Words(_) => false,
                Said::As(_) => is_below && paragraph.below.len() == 0,
            },
        }
    }

    /// A paragraph behind the others, below the one at a place; the answer is its own place.
    fn push(
        &mut self,
        above: usize,
        kids: &[usize],
        form: Form,
        said: Said,
    ) -> Result<usize, AllocError> {
        let place = self.story.len();
        let is_rest = form.is_rest;
        let is_joined = form.is_alone && self.is_open(above)
            || form.is_reference && self.is_reference(above);
        let whence = match kids.get(0) {
            None => return Ok(place),
            Some(first) => match self.points.get(*first) {
                None => return Ok(place),
                Some(point) => point.whence,
            },
        };
        let mut number = Vec::new(self.alloc);
        if let Some(parent) = self.story.get_mut(above) {
            for part in parent.number.as_slice() {
                number.push(*part)?;
            }
            number.push(parent.below.len().saturating_add(1))?;
            parent.below.push(place)?;
        }
        let bundles = if is_rest {
            Vec::new(self.alloc)
        } else {
            self.bundles(kids)?
        };
        self.story.push(Paragraph {
            number,
            whence,
            bundles,
            is_rest,
            said,
            is_joined,
            below: Vec::new(self.alloc),
        })?;
        Ok(place)
    }

    /// What is said of a node, in words of its own.
    fn words(&self, node: usize) -> Result<Said, AllocError> {
        Ok(Said::Words(copied(self.alloc, self.body(node))?))
    }

    /// Notes that the node is told in full, for nodes with the same words that may refer to it.
    fn keep_full(&mut self, node: usize, place: usize) -> Result<(), AllocError> {
        let words = self.tree.at(node).words;
        let full = Full { node, place };
        if let Some(list) = self.full.get_mut(&words) {
            if list.len() < CANDIDATES {
                list.push(full)?;
            }
            return Ok(());
        }
        let mut list = Vec::new(self.alloc);
        list.push(full)?;
        self.full.insert(words, list)?;
        Ok(())
    }

    /// The paragraph that tells the group already, if it takes more than a few letters.
    fn told_before(&self, group: &Group) -> Option<usize> {
        match group.kids.as_slice().get(0) {
            None => None,
            Some(first) => {
                if self.tree.at(*first).size > SHORT {
                    self.told.get(&group.class).copied()
                } else {
                    None
                }
            }
        }
    }

    /// A group of children below a paragraph.
    #[cycle(story)]
    fn tell_group(
        &mut self,
        above: usize,
        group: &Group,
        form: Form,
        depth: usize,
    ) -> Result<(), AllocError> {
        let kids = group.kids.as_slice();
        let node = match kids.get(0) {
            None => return Ok(()),
            Some(first) => *first,
        };
        if let Some(place) = self.told_before(group) {
            let form = Form {
                is_reference: true,
                ..form
            };
            self.push(above, kids, form, Said::As(place))?;
            return Ok(());
        }
        let below = self.tree.kids(self.alloc, node)?;
        match self.but(node, below.as_slice())? {
            Some(but) => {
                let form = Form {
                    is_reference: but.kids.len() == 0,
                    ..form
                };
                let place = self.push(above, kids, form, Said::As(but.place))?;
                self.told.insert(group.class, place)?;
                self.tell(place, but.kids.as_slice(), false, depth)
            }
            None => {
                let said = self.words(node)?;
                let place = self.push(above, kids, form, said)?;
                self.told.insert(group.class, place)?;
                self.tell(place, below.as_slice(), true, depth)?;
                if below.len() > 0 {
                    self.keep_full(node, place)?;
                }
                Ok(())
            }
        }
    }

    /// Children of a node, all of them or those in which it differs from another, below a paragraph.
    #[cycle(story)]
    fn tell(
        &mut self,
        above: usize,
        kids: &[usize],
        are_all: bool,
        depth: usize,
    ) -> Result<(), AllocError> {
        if depth == 0 {
            return Ok(());
        }
        let groups = self.groups(kids)?;
        let rest = if are_all {
            self.rest(groups.as_slice())?
        } else {
            None
        };
        let form = Form {
            is_rest: false,
            is_alone: groups.len() == 1,
            is_reference: false,
        };
        let mut later = Vec::new(self.alloc);
        for i in 0..groups.len() {
            if Some(i) != rest {
                if self.told_before(&groups[i]).is_some() {
                    later.push(i)?;
                } else {
                    self.tell_group(above, &groups[i], form, depth - 1)?;
                }
            }
        }
        for i in later.as_slice() {
            if let Some(group) = groups.as_slice().get(*i) {
                self.tell_group(above, group, form, depth - 1)?;
            }
        }
        if let Some(i) = rest {
            if let Some(group) = groups.as_slice().get(i) {
                let form = Form {
                    is_rest: true,
                    ..form
                };
                self.tell_group(above, group, form, depth - 1)?;
            }
        }
        Ok(())
    }
}

/// A story of the nodes, which stand in preorder.
pub(crate) fn story_of(alloc: Global, points: &[Point]) -> Result<Vec<Paragraph>, AllocError> {
    let tree = tree_of(alloc, points)?;
    let mut teller = Teller {
        alloc,
        points,
        tree,
        story: Vec::new(alloc),
        told: HashMap::new(alloc),
        full: HashMap::new(alloc),
    };
    if points.len() == 0 {
        return Ok(teller.story);
    }
    let said = teller.words(0)?;
    teller.story.push(Paragraph {
        number: Vec::new(alloc),
        whence: points[0].whence,
        bundles: Vec::new(alloc),
        is_rest: false,
        said,
        is_joined: false,
        below: Vec::new(alloc),
    })?;
    let kids = teller.tree.kids(alloc, 0)?;
    teller.tell(0, kids.as_slice(), true, DEPTH)?;
    Ok(teller.story)
}
