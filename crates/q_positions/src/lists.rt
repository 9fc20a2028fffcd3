//! Lists of numbers side by side.
ghost use Rattle.std.specs.List.{AllByRecursion};
ghost use Rattle.std.specs.Prelude.{◌≡◌, ◌<◌, ◌≤◌, ◌+◌, ◌*◌, ◌++◌, ◌^◌, [], ◌∷◌, drop, get_or, IfOk, length, replicate, set, take};

use std::alloc::{AllocError, Global};
use std::marker::Model;

/// So many lists of numbers. A contract sees them as lists, with how many numbers each has room
/// for.
#[derive(Debug, Drop)]
pub struct Lists {
    /// The cells of the lists, one list behind another.
    cells: Vec<u32>,
    /// How many cells of each list are used.
    lens: Vec<u32>,
    /// How many cells each list has.
    most: u32,
}

impl Model for Lists {
    ghost use Rattle.q_positions.specs.Lists.{IsSound, Lists as ListsValue, lists_in};

    ghost Value = { ListsValue };

    ghost view = { λ a. record {
      lists = lists_in a.most a.cells.items a.lens.items;
      most = a.most;
    } };

    ghost invariant = { λ a. IsSound a.cells.items a.lens.items a.most };
}

/// Where the cells of a list begin, of which each has so many.
fn start_of(number: u32, most: u32) -> usize
    requires few { number < 2 ^ 30 }
    requires short { most ≤ 1024 }
    ensures { result ≡ number * most }
{
    number as usize * most as usize
}

/// How long a list is.
fn len_of(lens: &Vec<u32>, number: u32) -> u32
    requires { number < length lens.now.items }
    ensures { result ≡ get_or lens.now.items number 0 }
{
    lens[number as usize]
}

/// So many zeros.
fn zeros(alloc: Global, count: usize) -> Result<Vec<u32>, AllocError>
    ensures { IfOk result (λ made. made.items ≡ replicate count 0) }
{
    vec![in alloc; 0; count]
}

/// Writes numbers over those from a place on.
fn write(cells: &mut Vec<u32>, at: usize, numbers: &[u32])
    requires { at + length numbers.now ≤ length cells.old.items }
    ensures { cells.new.items ≡ take at cells.old.items
        ++ (numbers.now ++ drop (length numbers.now) (drop at cells.old.items)) }
{
    cells[at..at + numbers.len()].copy_from_slice(numbers);
}

impl Lists {
    /// So many empty lists, each with room for so many numbers. It takes 4 bytes for each number
    /// and each list, and an error says that memory is wanting.
    pub fn new(alloc: Global, room: u32, most: u32) -> Result<Lists, AllocError>
        requires some { 1 ≤ room }
        requires few { room < 2 ^ 30 }
        requires one { 1 ≤ most }
        requires short { most ≤ 1024 }
        ensures { IfOk result (λ made. made
            ≡ record { lists = replicate room []; most = most }) }
    {
        let cells = zeros(alloc, start_of(room, most))?;
        let lens = zeros(alloc, room as usize)?;
        Ok(Lists { cells, lens, most })
    }

    /// How many lists there are.
    pub fn count(&self) -> u32
        ensures { result ≡ length self.now.lists }
    {
        self.lens.len() as u32
    }

    /// No list has more numbers than have room, whatever was called: this does nothing, and is there
    /// for callers whose proofs want to know it.
    pub fn stand_short(&self)
        ensures { AllByRecursion (λ xs. length xs ≤ self.now.most) self.now.lists }
    {
        let _most = self.most;
    }

    /// How many numbers each list has room for.
    pub fn most(&self) -> u32
        ensures { result ≡ self.now.most }
    {
        self.most
    }

    /// The list of this number, and the empty list where there is none.
    pub fn get(&self, number: u32) -> &[u32]
        ensures { result.now ≡ get_or self.now.lists number [] }
    {
        if number as usize >= self.lens.len() {
            return &[];
        }
        let start = start_of(number, self.most);
        let end = start + len_of(&self.lens, number) as usize;
        &self.cells[start..end]
    }

    /// Makes a list empty.
    pub fn clear(&mut self, number: u32)
        requires { number < length self.old.lists }
        ensures { self.new ≡ record self.old { lists = set self.old.lists number [] } }
    {
        self.lens[number as usize] = 0;
    }

    /// Adds a number at the end of a list.
    pub fn push(&mut self, number: u32, position: u32)
        requires known { number < length self.old.lists }
        requires room { length (get_or self.old.lists number []) < self.old.most }
        ensures { self.new ≡ record self.old {
          lists = set self.old.lists number (get_or self.old.lists number [] ++ position ∷ []);
        } }
    {
        let len = len_of(&self.lens, number);
        let at = start_of(number, self.most) + len as usize;
        self.cells[at] = position;
        self.lens[number as usize] = len + 1;
    }

    /// Puts these numbers in place of those of a list.
    pub fn set(&mut self, number: u32, positions: &[u32])
        requires known { number < length self.old.lists }
        requires room { length positions.now ≤ self.old.most }
        ensures { self.new ≡ record self.old { lists = set self.old.lists number positions.now } }
    {
        write(&mut self.cells, start_of(number, self.most), positions);
        self.lens[number as usize] = positions.len() as u32;
    }
}
