// A list that is held in chunks, so that no item of it is copied as it grows.
#![tactic(auto)]

ghost use Rattle.std.specs.Prelude.{◌≡◌, ◌<◌, [], ◌∷◌, ◌++◌, IfOk, OnErr, OnOk, length, slice_index_or};
ghost use Rattle.std.specs.Borrow.{sem};
ghost use Rattle.chunked_vec.specs.Chunks.{AreFull, HasRoom, items_in};

use std::alloc::{AllocError, Global};
use std::marker::Model;
use std::ops::{Index, IndexMut};

/// How many items a chunk may have.
const CHUNK: usize = 4096;

/// A list that is held in chunks of 4,096 items. No item behind the first chunk is copied, so a long list that grows leaves
/// no holes in memory behind it.
#[derive(Drop)]
pub struct ChunkedVec<T> {
    alloc: Global,
    chunks: Vec<Vec<T>>,
    len: usize,
}

impl<T> Model for ChunkedVec<T> {
    ghost use Rattle.std.specs.Prelude.{◌≡◌, List, length};

    ghost Value = { List T };

    ghost use Rattle.chunked_vec.specs.Chunks.{AreFull, items_in};

    ghost view = { λ v. items_in v.chunks.items };

    ghost invariant = { λ v. AreFull v.chunks.items × (v.len ≡ length (items_in v.chunks.items)) };
}

/// An empty chunk. The first of a list grows as it is filled, and each other one has room for all its items at once.
fn empty_chunk<T>(is_first: bool, alloc: Global) -> Result<Vec<T>, AllocError>
    ensures { IfOk result (λ chunk. chunk.items ≡ []) }
{
    if is_first {
        Ok(Vec::new(alloc))
    } else {
        Vec::with_capacity(alloc, CHUNK)
    }
}

/// Puts an empty chunk behind chunks of so many items where the last one is full.
fn make_room<T: Drop>(chunks: &mut Vec<Vec<T>>, len: usize, alloc: Global) -> Result<(), AllocError>
    requires full { AreFull chunks.old.items }
    requires all { len ≡ length (items_in chunks.old.items) }
    ensures room { OnOk result (HasRoom len chunks.new.items) }
    ensures same { items_in chunks.new.items ≡ items_in chunks.old.items }
    ensures unchanged { OnErr result (chunks.new.items ≡ chunks.old.items) }
{
    if len / CHUNK < chunks.len() {
        return Ok(());
    }
    let chunk = empty_chunk(chunks.is_empty(), alloc)?;
    chunks.push(chunk)?;
    Ok(())
}

impl<T> ChunkedVec<T> {
    /// No items. It takes no memory.
    pub fn new(alloc: Global) -> ChunkedVec<T>
        ensures { result ≡ [] }
    {
        ChunkedVec {
            alloc,
            chunks: Vec::new(alloc),
            len: 0,
        }
    }

    /// How many items there are.
    #[inline(always)]
    pub fn len(&self) -> usize
        ensures { result ≡ length self.now }
    {
        self.len
    }

    /// An item more. Where memory is wanting, or `usize` has no count of so many, the list stays as it was.
    pub fn push(&mut self, item: T) -> Result<(), AllocError>
    where
        T: Drop,
        ensures items { OnOk result (self.new ≡ self.old ++ item ∷ []) }
        ensures unchanged { OnErr result (self.new ≡ self.old) }
    {
        let Some(len) = self.len.checked_add(1) else {
            return Err(AllocError);
        };
        make_room(&mut self.chunks, self.len, self.alloc)?;
        self.chunks[self.len / CHUNK].push(item)?;
        self.len = len;
        Ok(())
    }
}

impl<T> Index<usize> for ChunkedVec<T> {
    type Output = T;

    ghost use Rattle.std.specs.Prelude.{◌≡◌, ◌<◌, length, slice_index_or};

    ghost can_index = { λ v i. i < length v };

    ghost index_gives = { λ v i x. x ≡ slice_index_or v i x };

    #[inline(always)]
    fn index(&self, number: usize) -> &T {
        &self.chunks[number / CHUNK][number % CHUNK]
    }
}

impl<T> IndexMut<usize> for ChunkedVec<T> {
    ghost use Rattle.chunked_vec.specs.Lending.{lends_item};

    fn index_mut(&mut self, number: usize) -> &mut T
        requires { number < length self.old }
        ensures* writes_back { sem 𝓛 (lends_item T.row self.entry number result) }
        ensures value { result.now ≡ slice_index_or self.old number result.now }
    {
        let chunk = &mut self.chunks[number / CHUNK];
        &mut chunk[number % CHUNK]
    }
}
