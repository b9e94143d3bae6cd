//! Lists in which most places have nothing.
ghost use Rattle.std.specs.Prelude.{◌≡◌, ◌≤◌, ◌<◌, ◌-◌, ◌++◌, ◌∷◌, [], Some, None, length, replicate, slice_index_or, IfOk};

use pv_token::NoMemory;
use std::alloc::Global;
use std::marker::Model;

/// A table numbered by `u32` has room for so many entries.
const LIMIT: usize = 0xffff_ffff;

/// What is found at each of many places, at most of which nothing is: 4 bytes a place, and what is found behind that.
#[derive(Drop)]
pub(crate) struct Sparse<T> {
    /// 0 where nothing is found, else one more than the place among the values.
    numbers: Vec<u32>,
    values: Vec<T>,
}

impl<T> Model for Sparse<T> {
    ghost use Rattle.std.specs.Prelude.{List, Option, map};
    ghost use Rattle.pv_decl.specs.Sparse.{found_in, AreFound};

    ghost Value = { List (Option T) };

    ghost view = { λ s. map (found_in s.values.items) s.numbers.items };

    ghost invariant = { λ s. AreFound s.values.items s.numbers.items };
}

impl<T: Copy> Sparse<T> {
    /// No place, which takes no memory.
    pub fn new(alloc: Global) -> Sparse<T>
        ensures { result ≡ [] }
    {
        Sparse {
            numbers: Vec::new(alloc),
            values: Vec::new(alloc),
        }
    }

    /// How many places there are.
    pub fn len(&self) -> usize
        ensures { result ≡ length self.now }
    {
        self.numbers.len()
    }

    /// What is found at place number `i`.
    pub fn at(&self, i: usize) -> Option<T>
        requires { i < length self.now }
        ensures { result ≡ slice_index_or self.now i None }
    {
        let number = self.numbers[i];
        if number == 0 {
            None
        } else {
            Some(self.values[number as usize - 1])
        }
    }

    /// As many places in all, at the last of which nothing is found where they are new. The only error is want of memory.
    pub fn fill(&mut self, count: usize) -> Result<(), NoMemory>
        requires { length self.old ≤ count }
        ensures { IfOk result (λ _. self.new ≡ self.old ++ replicate (count - length self.old) None) }
    {
        self.numbers.resize(count, 0)?;
        Ok(())
    }

    /// One place more. The only error is want of memory, or of numbers.
    pub fn push(&mut self, found: Option<T>) -> Result<(), NoMemory>
        ensures { IfOk result (λ _. self.new ≡ self.old ++ (found ∷ [])) }
    {
        match found {
            Some(value) => self.push_value(value),
            None => {
                self.numbers.push(0)?;
                Ok(())
            }
        }
    }

    // One place more, where something is found.
    fn push_value(&mut self, value: T) -> Result<(), NoMemory>
        ensures { IfOk result (λ _. self.new ≡ self.old ++ (Some value ∷ [])) }
    {
        let place = self.values.len();
        if place >= LIMIT {
            return Err(NoMemory);
        }
        self.numbers.reserve(1)?;
        self.values.push(value)?;
        self.numbers.push_reserved(place as u32 + 1);
        Ok(())
    }
}
