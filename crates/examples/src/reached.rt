//! What chains of references reach in a module, with the chains.

use std::alloc::Global;
use std::collections::BTreeMap;
use walrus::passes::{Item, Reason, references, roots};
use walrus::{Module, Result};

/// The most items that a module can have: there are ids of 32 bits in ten spaces.
pub const MOST: u64 = 10 << 32;

/// An item that was reached.
#[derive(Clone, Copy)]
pub struct Step {
    /// The item.
    pub item: Item,
    /// Why it is kept for itself, where it is.
    pub root: Option<Reason>,
    /// The position of the one that refers to it, where it isn't.
    pub by: usize,
}

/// What was reached, in the order in which it was.
#[derive(Drop)]
pub struct Reached {
    /// The items.
    pub steps: Vec<Step>,
    positions: BTreeMap<u64, usize>,
}

// A number for the item, which no other has.
fn key(item: Item) -> u64 {
    item.space_number() as u64 * 4294967296 + u64::from(item.id)
}

impl Reached {
    fn new(alloc: Global) -> Self {
        Reached {
            steps: Vec::new(alloc),
            positions: BTreeMap::new(alloc),
        }
    }

    /// The position of an item, where it was reached.
    pub fn position(&self, item: Item) -> Option<usize> {
        self.positions.get(&key(item)).copied()
    }

    fn push(&mut self, item: Item, root: Option<Reason>, by: usize) -> Result<()> {
        self.positions.insert(key(item), self.steps.len())?;
        self.steps.push(Step { item, root, by })?;
        Ok(())
    }

    // Adds an item, where it wasn't reached yet.
    fn add(&mut self, item: Item, root: Option<Reason>, by: usize) -> Result<()> {
        if self.position(item).is_some() {
            return Ok(());
        }
        self.push(item, root, by)
    }
}

// Adds the roots.
fn add_roots(alloc: Global, reached: &mut Reached, module: &Module) -> Result<()> {
    let roots = roots(alloc, module)?;
    for (item, why) in roots.as_slice() {
        reached.add(*item, Some(*why), 0)?;
    }
    Ok(())
}

// Adds what the item at this position refers to.
fn add_references(
    alloc: Global,
    reached: &mut Reached,
    module: &Module,
    item: Item,
    by: usize,
) -> Result<()> {
    let references = references(alloc, module, item)?;
    for item in references.as_slice() {
        reached.add(*item, None, by)?;
    }
    Ok(())
}

// Adds what is reached from the items that are there, nearest first.
fn add_all(alloc: Global, reached: &mut Reached, module: &Module) -> Result<()> {
    for next in 0..MOST as usize {
        let Some(step) = reached.steps.get(next) else {
            return Ok(());
        };
        let item = step.item;
        add_references(alloc, reached, module, item, next)?;
    }
    Ok(())
}

/// All that is reached, nearest first.
pub fn reach(alloc: Global, module: &Module) -> Result<Reached> {
    let mut reached = Reached::new(alloc);
    add_roots(alloc, &mut reached, module)?;
    add_all(alloc, &mut reached, module)?;
    Ok(reached)
}
