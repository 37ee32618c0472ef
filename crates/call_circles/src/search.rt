//! Searches along calls. They promise nothing: what they find is checked.

use crate::calls::{Call, Need, all_turned};
use crate::known::Known;
use crate::ways::{Way, way_from};
use sqlite_items::Items;
use std::alloc::{AllocError, Global};

// The calls to each routine, as lists.
#[derive(Drop)]
struct Callers {
    // Of each routine the last call to it.
    last: Items<Option<u32>>,
    // Of each call the one before it to the same routine.
    before: Items<Option<u32>>,
}

// An item, or none where there is no such item.
fn item(items: &[Option<u32>], at: u32) -> Option<u32> {
    match items.get(at as usize) {
        None => None,
        Some(item) => *item,
    }
}

// Puts an item where there is one.
fn put<T: Copy + Drop>(items: &mut Items<T>, at: u32, item: T) {
    if (at as usize) < items.len() {
        items.set(at as usize, item);
    }
}

// So many items of one value.
fn filled<T: Copy + Drop>(alloc: Global, count: u32, value: T) -> Result<Items<T>, AllocError> {
    let mut items = Items::new(alloc);
    for _ in 0..count {
        items.push(value)?;
    }
    Ok(items)
}

impl Callers {
    fn of(alloc: Global, routines: u32, calls: &[Call]) -> Result<Callers, AllocError> {
        let mut callers = Callers {
            last: filled(alloc, routines, None)?,
            before: Items::new(alloc),
        };
        for (number, call) in calls.iter().enumerate() {
            let last = item(callers.last.as_slice(), call.to);
            callers.before.push(last)?;
            put(&mut callers.last, call.to, u32::try_from(number).ok());
        }
        Ok(callers)
    }

    fn last(&self, routine: u32) -> Option<u32> {
        item(self.last.as_slice(), routine)
    }

    fn before(&self, call: u32) -> Option<u32> {
        item(self.before.as_slice(), call)
    }
}

// The routine that a call stands in.
fn caller(calls: &[Call], number: u32) -> Option<u32> {
    match calls.get(number as usize) {
        None => None,
        Some(call) => call.from,
    }
}

// A routine whose callers are looked at.
#[derive(Clone, Copy, Drop)]
struct Visit {
    routine: u32,
    // The next call to it.
    next: Option<u32>,
}

// A walk from routines to those that call them, depth first.
#[derive(Drop)]
struct Walk {
    callers: Callers,
    seen: Items<bool>,
    open: Items<Visit>,
    finished: Items<u32>,
}

impl Walk {
    fn enter(&mut self, routine: u32) -> Result<(), AllocError> {
        match self.seen.as_slice().get(routine as usize) {
            Some(false) => {
                put(&mut self.seen, routine, true);
                let next = self.callers.last(routine);
                self.open.push(Visit { routine, next })
            }
            _ => Ok(()),
        }
    }

    // One step from a routine.
    fn step(&mut self, calls: &[Call], visit: Visit) -> Result<(), AllocError> {
        let Some(number) = visit.next else {
            return self.finished.push(visit.routine);
        };
        self.open.push(Visit {
            routine: visit.routine,
            next: self.callers.before(number),
        })?;
        match caller(calls, number) {
            None => Ok(()),
            Some(from) => self.enter(from),
        }
    }

    // Walks from a routine. Each step passes a call or finishes a routine.
    fn walk(&mut self, calls: &[Call], routine: u32) -> Result<(), AllocError> {
        self.enter(routine)?;
        for _ in 0..u64::MAX {
            let Some(visit) = self.open.pop() else {
                break;
            };
            self.step(calls, visit)?;
        }
        Ok(())
    }
}

// The routines in the order in which a walk to their callers, depth first, is done with them.
fn finished(alloc: Global, routines: u32, calls: &[Call]) -> Result<Items<u32>, AllocError> {
    let mut walk = Walk {
        callers: Callers::of(alloc, routines, calls)?,
        seen: filled(alloc, routines, false)?,
        open: Items::new(alloc),
        finished: Items::new(alloc),
    };
    for routine in 0..routines {
        walk.walk(calls, routine)?;
    }
    let Walk { finished, .. } = walk;
    Ok(finished)
}

// Ways to goals, breadth first.
#[derive(Drop)]
struct Search {
    callers: Callers,
    ways: Items<Option<Way>>,
    // The routines with a way, and how many of them are done.
    reached: Items<u32>,
    done: usize,
}

impl Search {
    // Takes a way from a routine that has none.
    fn reach(&mut self, routine: u32, way: Way) -> Result<(), AllocError> {
        match self.ways.as_slice().get(routine as usize) {
            Some(None) => {
                put(&mut self.ways, routine, Some(way));
                self.reached.push(routine)
            }
            _ => Ok(()),
        }
    }

    // Takes the ways from the callers of a routine.
    fn pass(&mut self, calls: &[Call], routine: u32) -> Result<(), AllocError> {
        let Some(way) = way_from(self.ways.as_slice(), routine) else {
            return Ok(());
        };
        let mut next = self.callers.last(routine);
        for _ in 0..calls.len() {
            let Some(by) = next else {
                break;
            };
            next = self.callers.before(by);
            if let Some(from) = caller(calls, by) {
                let steps = way.steps.saturating_add(1);
                self.reach(
                    from,
                    Way {
                        goal: way.goal,
                        steps,
                        by,
                    },
                )?;
            }
        }
        Ok(())
    }

    // Takes all ways to a goal.
    fn search(&mut self, calls: &[Call], goal: u32) -> Result<(), AllocError> {
        self.reach(
            goal,
            Way {
                goal,
                steps: 0,
                by: 0,
            },
        )?;
        for _ in 0..u64::MAX {
            let Some(routine) = self.reached.as_slice().get(self.done) else {
                break;
            };
            let routine = *routine;
            self.done = self.done.saturating_add(1);
            self.pass(calls, routine)?;
        }
        Ok(())
    }
}

// From each routine a way to the first of the goals that it leads to.
fn ways_to(
    alloc: Global,
    routines: u32,
    calls: &[Call],
    goals: &[u32],
) -> Result<Items<Option<Way>>, AllocError> {
    let mut search = Search {
        callers: Callers::of(alloc, routines, calls)?,
        ways: filled(alloc, routines, None)?,
        reached: Items::new(alloc),
        done: 0,
    };
    for goal in goals {
        search.search(calls, *goal)?;
    }
    let Search { ways, .. } = search;
    Ok(ways)
}

// Numbers in the other order.
fn reversed(alloc: Global, numbers: &[u32]) -> Result<Items<u32>, AllocError> {
    let mut all = Items::new(alloc);
    for number in numbers.iter().rev() {
        all.push(*number)?;
    }
    Ok(all)
}

// Those of the routines whose ways end at themselves.
fn own_goals(
    alloc: Global,
    routines: &[u32],
    ways: &[Option<Way>],
) -> Result<Items<u32>, AllocError> {
    let mut all = Items::new(alloc);
    for routine in routines {
        if let Some(way) = way_from(ways, *routine) {
            if way.goal == *routine {
                all.push(*routine)?;
            }
        }
    }
    Ok(all)
}

// Of each routine its place in a list.
fn places(alloc: Global, routines: u32, order: &[u32]) -> Result<Items<u32>, AllocError> {
    let mut places = filled(alloc, routines, 0)?;
    for (place, routine) in order.iter().enumerate() {
        put(&mut places, *routine, u32::try_from(place).unwrap_or(0));
    }
    Ok(places)
}

// The numbers of the needs, by their ends.
fn by_last(alloc: Global, needs: &[Need]) -> Result<Vec<(u32, u32)>, AllocError> {
    let mut all = Vec::new(alloc);
    for (number, need) in needs.iter().enumerate() {
        if let Ok(number) = u32::try_from(number) {
            all.push((need.last, number))?;
        }
    }
    all.sort()?;
    Ok(all)
}

// The routines of some needs, and of each routine its last need among them.
fn latest(
    alloc: Global,
    routines: u32,
    needs: &[Need],
    order: &[(u32, u32)],
) -> Result<(Items<u32>, Items<u32>), AllocError> {
    let mut goals = Items::new(alloc);
    let mut latest = filled(alloc, routines, 0)?;
    for (_, number) in order {
        if let Some(need) = needs.get(*number as usize) {
            goals.push(need.routine)?;
            put(&mut latest, need.routine, *number);
        }
    }
    Ok((goals, latest))
}

/// What is known of the routines that calls lead to. The routines that are done last are those that lead to the fewest:
/// from each of these, ways along calls reach no more than its circle.
pub fn known_of(
    alloc: Global,
    routines: u32,
    calls: &[Call],
    needs: &[Need],
) -> Result<Known, AllocError> {
    let turned = all_turned(alloc, calls)?;
    let order = finished(alloc, routines, calls)?;
    let back = reversed(alloc, order.as_slice())?;
    let down = ways_to(alloc, routines, turned.as_slice(), back.as_slice())?;
    let roots = own_goals(alloc, order.as_slice(), down.as_slice())?;
    let up = ways_to(alloc, routines, calls, roots.as_slice())?;
    let ranks = places(alloc, routines, order.as_slice())?;
    let by_last = by_last(alloc, needs)?;
    let (goals, latest) = latest(alloc, routines, needs, by_last.as_slice())?;
    let goals = reversed(alloc, goals.as_slice())?;
    let late = ways_to(alloc, routines, calls, goals.as_slice())?;
    Ok(Known {
        up,
        down,
        ranks,
        late,
        latest,
    })
}
