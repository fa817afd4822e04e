//! An order in which each object stands behind those that it names. Nothing rests on it.

use go_base::Memory;
use go_needs::components::empty_rows;
use std::alloc::Global;

/// Of each object how many names stand before it, and the objects that name it; and the objects that no name stands before any more.
#[derive(Drop)]
struct Search {
    left: Vec<usize>,
    users: Vec<Vec<usize>>,
    order: Vec<usize>,
}

impl Search {
    /// The one object names the others.
    fn add(&mut self, user: usize, named: &[usize]) -> Result<(), Memory> {
        for number in named {
            if *number < self.users.len() {
                self.users[*number].push(user)?;
            }
        }
        self.left.push(named.len())?;
        if named.is_empty() {
            self.order.push(user)?;
        }
        Ok(())
    }

    /// One name less stands before an object.
    fn release(&mut self, number: usize) -> Result<(), Memory> {
        if number < self.left.len() {
            let left = self.left[number].saturating_sub(1);
            self.left[number] = left;
            if left == 0 {
                self.order.push(number)?;
            }
        }
        Ok(())
    }

    /// The objects that name one.
    fn take_users(&mut self, alloc: Global, number: usize) -> Vec<usize> {
        if number < self.users.len() {
            std::mem::replace(&mut self.users[number], Vec::new(alloc))
        } else {
            Vec::new(alloc)
        }
    }

    /// An object stands in the order now.
    fn pass(&mut self, alloc: Global, number: usize) -> Result<(), Memory> {
        for user in self.take_users(alloc, number) {
            self.release(user)?;
        }
        Ok(())
    }

    fn run(&mut self, alloc: Global) -> Result<(), Memory> {
        for place in 0..self.left.len() {
            let Some(number) = self.order.get(place).copied() else {
                return Ok(());
            };
            self.pass(alloc, number)?;
        }
        Ok(())
    }
}

/// The objects that name these, in an order in which each stands behind those that it names; without those on a way that leads back.
pub fn order(alloc: Global, naming: &[Vec<usize>]) -> Result<Vec<usize>, Memory> {
    let mut search = Search {
        left: Vec::new(alloc),
        users: empty_rows(alloc, naming.len())?,
        order: Vec::new(alloc),
    };
    for (user, named) in naming.iter().enumerate() {
        search.add(user, named)?;
    }
    search.run(alloc)?;
    Ok(search.order)
}
