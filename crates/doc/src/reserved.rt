// Rows of items in memory that is taken once, for as many as there may ever be.
ghost use Rattle.std.specs.Prelude.{◌≡◌, ◌+◌, ◌-◌, ◌<◌, ◌≤◌, ℕ, List, [], ◌∷◌, ◌++◌, length, take, replicate, vec_len, vec_capacity, IfOk};
ghost use Rattle.std.specs.Borrow.{sem};
ghost use Rattle.doc.specs.Rows.{TakesMore};

use std::alloc::{AllocError, Global};
use std::marker::Model;

// There is no room for so many items. It has no words: who takes it says what is too long.
#[derive(Clone, Copy, Debug, PartialEq, Eq)]
pub struct Full;

// A row to which items can be pushed as long as there is room.
pub trait Pushed<T> {
    ghost items: { Self → List T };

    ghost room: { Self → ℕ };

    fn push(&mut self, item: T)
        requires { length (items self.old) < room self.old }
        ensures items { items self.new ≡ items self.old ++ item ∷ [] }
        ensures room { room self.new ≡ room self.old };
}

impl<T> Pushed<T> for Vec<T> {
    ghost items = { λ v. v.items };

    ghost room = { λ v. vec_capacity v };

    fn push(&mut self, item: T) {
        self.push_reserved(item);
    }
}

// At most `MOST` items. A clause sees the list of them.
#[derive(Drop)]
pub struct Reserved<T, const MOST: usize> {
    items: Vec<T>,
}

impl<T, const MOST: usize> Model for Reserved<T, MOST> {
    ghost Value = { List T };

    ghost view = { λ r. r.items.items };

    ghost invariant = { λ r. (vec_len r.items ≤ MOST) × (MOST ≤ vec_capacity r.items) };
}

impl<T: Copy, const MOST: usize> Reserved<T, MOST> {
    ghost use Rattle.doc.specs.Lending.{LendsItems};

    // No items yet. Only here can memory be wanting.
    pub fn new(heap: Global) -> Result<Self, AllocError>
        ensures { IfOk result (λ r. r ≡ []) }
    {
        let items = Vec::with_capacity(heap, MOST)?;
        Ok(Reserved { items })
    }

    pub fn len(&self) -> usize
        ensures count { result ≡ length self.now }
        ensures within { result ≤ MOST }
    {
        self.items.len()
    }

    pub fn as_slice(&self) -> &[T]
        ensures items { result.now ≡ self.now }
        ensures within { length self.now ≤ MOST }
    {
        self.items.as_slice()
    }

    pub fn as_mut_slice(&mut self) -> &mut [T]
        ensures* writes_back { sem 𝓛 (LendsItems T.row MOST.row self.entry result) }
        ensures items { result.now ≡ self.old }
    {
        self.items.as_mut_slice()
    }

    pub fn clear(&mut self)
        ensures { self.new ≡ [] }
    {
        self.items.clear();
    }

    pub fn push(&mut self, item: T)
        requires { length self.old < MOST }
        ensures { self.new ≡ self.old ++ item ∷ [] }
    {
        self.items.push_reserved(item);
    }

    pub fn extend_from_slice(&mut self, more: &[T])
        requires { length self.old + length more.now ≤ MOST }
        ensures { self.new ≡ self.old ++ more.now }
    {
        // There is room, so it cannot fail; the library answers a Result all the same.
        let _ = self.items.extend_from_slice(more);
    }

    // More items, or none of them where there is no room for all.
    pub fn try_extend_from_slice(&mut self, more: &[T]) -> Result<(), Full>
        ensures takes { TakesMore MOST self.old more.now self.new result }
        ensures within { length self.new ≤ MOST }
    {
        if more.len() > MOST - self.len() {
            return Err(Full);
        }
        self.extend_from_slice(more);
        Ok(())
    }

    // As many items: those at the end go, or others come there.
    pub fn resize(&mut self, len: usize, item: T)
        requires { len ≤ MOST }
        ensures { self.new ≡ take len self.old ++ replicate (len - length self.old) item }
    {
        // It cannot fail, as above.
        let _ = self.items.resize(len, item);
    }

    pub fn truncate(&mut self, len: usize)
        ensures { self.new ≡ take len self.old }
    {
        self.items.truncate(len);
    }
}

impl<T: Copy, const MOST: usize> Pushed<T> for Reserved<T, MOST> {
    ghost items = { λ r. r };

    ghost room = { λ _. MOST };

    fn push(&mut self, item: T) {
        self.push(item);
    }
}
