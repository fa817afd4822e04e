//! Which objects need one that fails, by a search in breadth against the direction of needs.
//!
//! Nothing rests on the levels being right: they are tried against the names before they count.

use crate::calls::Call;
use crate::levels::{Levels, level_of};
use crate::owners::Owner;
use go_scopes_cycles::ranks::{Part, Place};
use std::alloc::{AllocError, Global};
use std::collections::HashMap;

/// The levels of an object that needs none that fails.
const NO_LEVELS: Levels = Levels {
    partly: None,
    fully: None,
};

/// An object that is needed in part or in full.
#[derive(Clone, Copy, Debug)]
struct Step {
    number: usize,
    full: bool,
}

/// An object that needs what stands in a part: where it is needed itself in part, in full, or either way.
#[derive(Clone, Copy, Debug)]
struct User {
    number: usize,
    partly: bool,
    fully: bool,
}

/// An object that fails, and its rank.
#[derive(Clone, Copy, Debug)]
pub struct Seed {
    pub rank: usize,
    pub number: usize,
}

/// The levels of objects: their places in the order in which a search comes to them; and the rank of the failing one that each of these
/// places was found from.
#[derive(Drop)]
pub struct Graded {
    pub levels: Vec<Levels>,
    pub grades: Vec<usize>,
}

/// The objects whose names stand in each part, and the parts in which each object is called for.
#[derive(Drop)]
struct Search {
    levels: Vec<Levels>,
    users: HashMap<Place, Vec<User>>,
    /// The parts in which each object is called for in part.
    partial: Vec<Vec<Place>>,
    /// The parts in which each object is called for in full.
    full: Vec<Vec<Place>>,
    /// The objects with a level, in the order of the levels.
    queue: Vec<Step>,
    /// The ranks of those that they were found from.
    grades: Vec<usize>,
    /// How many objects of the queue are behind the search.
    done: usize,
}

/// So many empty rows.
fn rows(alloc: Global, count: usize) -> Result<Vec<Vec<Place>>, AllocError> {
    let mut rows = Vec::with_capacity(alloc, count)?;
    for _ in 0..count {
        rows.push(Vec::new(alloc))?;
    }
    Ok(rows)
}

/// Puts a part into a row, if there are both.
fn push_place(
    rows: &mut Vec<Vec<Place>>,
    number: usize,
    place: Option<Place>,
) -> Result<(), AllocError> {
    if let Some(place) = place {
        if number < rows.len() {
            rows[number].push(place)?;
        }
    }
    Ok(())
}

impl Search {
    fn new(alloc: Global, count: usize) -> Result<Search, AllocError> {
        Ok(Search {
            levels: vec![in alloc; NO_LEVELS; count]?,
            users: HashMap::new(alloc),
            partial: rows(alloc, count)?,
            full: rows(alloc, count)?,
            queue: Vec::new(alloc),
            grades: Vec::new(alloc),
            done: 0,
        })
    }

    /// The object needs what stands in the part.
    fn add_user(&mut self, alloc: Global, place: Place, user: User) -> Result<(), AllocError> {
        if let Some(row) = self.users.get_mut(&place) {
            row.push(user)?;
            return Ok(());
        }
        let mut row = Vec::new(alloc);
        row.push(user)?;
        self.users.insert(place, row)?;
        Ok(())
    }

    /// The object needs what stands in the parts of its specification.
    fn add_owner(&mut self, alloc: Global, number: usize, owner: &Owner) -> Result<(), AllocError> {
        let Some(source) = owner.source else {
            return Ok(());
        };
        let spot = (owner.file, source);
        for (part, partly, fully) in [
            (Part::Always, true, true),
            (Part::Value(owner.column), true, true),
            (Part::Partial, true, false),
            (Part::Full, false, true),
        ] {
            let user = User {
                number,
                partly,
                fully,
            };
            self.add_user(alloc, (spot, part), user)?;
        }
        Ok(())
    }

    /// Gives an object the next level, if it has none.
    fn put(&mut self, step: Step, grade: usize) -> Result<(), AllocError> {
        if step.number < self.levels.len()
            && level_of(&self.levels, step.number, step.full).is_none()
        {
            let level = Some(self.queue.len());
            if step.full {
                self.levels[step.number].fully = level;
            } else {
                self.levels[step.number].partly = level;
            }
            self.queue.push(step)?;
            self.grades.push(grade)?;
        }
        Ok(())
    }

    /// Gives levels to an object that needs what has one.
    fn put_user(&mut self, user: User, grade: usize) -> Result<(), AllocError> {
        let number = user.number;
        for (full, needs) in [(false, user.partly), (true, user.fully)] {
            if needs {
                self.put(Step { number, full }, grade)?;
            }
        }
        Ok(())
    }

    /// Gives levels to all that need what stands in the part.
    fn spread(&mut self, place: Place, grade: usize) -> Result<(), AllocError> {
        if let Some(users) = self.users.remove(&place) {
            for user in users {
                self.put_user(user, grade)?;
            }
        }
        Ok(())
    }

    /// The parts in which an object is called for.
    fn take_places(&mut self, alloc: Global, step: Step) -> Vec<Place> {
        let rows = if step.full {
            &mut self.full
        } else {
            &mut self.partial
        };
        if step.number < rows.len() {
            std::mem::replace(&mut rows[step.number], Vec::new(alloc))
        } else {
            Vec::new(alloc)
        }
    }

    /// Gives levels to all that need the object at once.
    fn expand(&mut self, alloc: Global, step: Step, grade: usize) -> Result<(), AllocError> {
        for place in self.take_places(alloc, step) {
            self.spread(place, grade)?;
        }
        Ok(())
    }

    /// Gives levels to all that need an object with one.
    fn run(&mut self, alloc: Global, grade: usize) -> Result<(), AllocError> {
        let last = self.levels.len().saturating_mul(2);
        for place in self.done..last {
            let Some(step) = self.queue.get(place).copied() else {
                return Ok(());
            };
            self.expand(alloc, step, grade)?;
            self.done = place.saturating_add(1);
        }
        Ok(())
    }

    /// Gives levels to an object that fails and to all that need it.
    fn start(&mut self, alloc: Global, seed: Seed) -> Result<(), AllocError> {
        for full in [false, true] {
            let number = seed.number;
            self.put(Step { number, full }, seed.rank)?;
        }
        self.run(alloc, seed.rank)
    }
}

/// A search among the objects with these specifications, by what their names call for.
fn search_of(alloc: Global, owners: &[Owner], calls: &[Call]) -> Result<Search, AllocError> {
    let mut search = Search::new(alloc, owners.len())?;
    for (number, owner) in owners.iter().enumerate() {
        search.add_owner(alloc, number, owner)?;
    }
    for call in calls {
        push_place(&mut search.full, call.number, call.full)?;
        push_place(&mut search.partial, call.number, call.partial)?;
    }
    Ok(search)
}

/// The levels of the objects with these specifications, by what their names call for and which of them fail: those of the first of these,
/// and of all that need it, are the lowest. Where none fails, none has a level, and nothing is searched.
pub fn graded_levels(
    alloc: Global,
    owners: &[Owner],
    calls: &[Call],
    seeds: &[Seed],
) -> Result<Graded, AllocError> {
    if seeds.is_empty() {
        return Ok(Graded {
            levels: vec![in alloc; NO_LEVELS; owners.len()]?,
            grades: Vec::new(alloc),
        });
    }
    let mut search = search_of(alloc, owners, calls)?;
    for seed in seeds {
        search.start(alloc, *seed)?;
    }
    Ok(Graded {
        levels: search.levels,
        grades: search.grades,
    })
}

/// The same by a flag of each object whether it fails.
pub fn levels(
    alloc: Global,
    owners: &[Owner],
    calls: &[Call],
    fails: &[bool],
) -> Result<Vec<Levels>, AllocError> {
    let mut seeds = Vec::new(alloc);
    for (number, failing) in fails.iter().enumerate() {
        if *failing {
            seeds.push(Seed { rank: 0, number })?;
        }
    }
    Ok(graded_levels(alloc, owners, calls, &seeds)?.levels)
}
