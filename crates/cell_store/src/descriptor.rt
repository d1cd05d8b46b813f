ghost use Rattle.std.specs.Prelude.{◌≡◌, ◌≤◌, ◌<◌, ◌+◌, ◌∷◌, [], ℕ, List, length, map, min, Ok, Some, IfOk, IfSome, slice_get};
ghost use Rattle.std.specs.Option.{option_or};
ghost use Rattle.cell_store.specs.Arrays.{dimension, elements, extent, index_of, subarray_of, is_within};
ghost use Rattle.cell_store.specs.Held.{further};

use crate::dimension::{Dimension, count_elements};
use crate::items::item_at;
use std::marker::Model;
use value_ops::{Fault, SimpleType};

/// The most dimensions of an array.
const MOST_DIMENSIONS: usize = 8;

/// An array of at most 32,767 elements, or a subarray, of which some subscripts are given. Contracts see its element type,
/// its dimensions, and the cell of its first element.
#[derive(Clone, Copy)]
pub struct Descriptor {
    kind: SimpleType,
    /// Its dimensions, and behind them blank ones.
    dimensions: [Dimension; MOST_DIMENSIONS],
    /// How many dimensions it has.
    count: usize,
    first: u32,
    /// How many elements it has.
    total: u32,
}

impl Model for Descriptor {
    ghost use Rattle.std.specs.Prelude.{length, take};
    ghost use Rattle.cell_store.specs.Arrays.{Array, elements};

    ghost Value = { Array };

    ghost use Rattle.cell_store.specs.Held.{Placed, padded};
    ghost use Rattle.cell_store.specs.Placing.{given_back};

    ghost view = { λ d. record { kind = d.kind; dimensions = take d.count d.dimensions; first = d.first } };

    ghost invariant = { λ d. Placed d.dimensions d.count d.first d.total };

    ghost inverse = { λ a. record {
      kind = a.kind;
      dimensions = padded a.dimensions;
      count = length a.dimensions;
      first = a.first;
      total = elements a.dimensions;
    } };

    ghost inverse_ok = { λ d h. given_back d h };
}

impl Descriptor {
    /// An array with these bounds, from 1 to 8 dimensions, whose elements begin at a cell.
    pub(crate) fn new(kind: SimpleType, bounds: &[(i32, i32)], first: u32) -> Descriptor
        requires most { length bounds.now ≤ 8 }
        requires room { first + elements (map dimension bounds.now) ≤ 32768 }
        ensures { result ≡ record { kind = kind; dimensions = map dimension bounds.now; first = first } }
    {
        let mut dimensions = [Dimension::BLANK; MOST_DIMENSIONS];
        for (k, bound) in bounds.iter().enumerate() {
            dimensions[k] = Dimension::new(*bound);
        }
        Descriptor {
            kind,
            dimensions,
            count: bounds.len(),
            first,
            total: count_elements(bounds),
        }
    }

    /// It becomes the same as another. Most arrays have one dimension, and the others aren't gone through then.
    #[inline(always)]
    pub(crate) fn copy_from(&mut self, other: &Descriptor)
        ensures { self.new ≡ other.now }
    {
        if self.count == 1 && other.count == 1 {
            self.kind = other.kind;
            self.dimensions[0] = other.dimensions[0];
            self.first = other.first;
            self.total = other.total;
        } else {
            *self = *other;
        }
    }

    /// The type of its elements.
    pub fn kind(&self) -> SimpleType
        ensures { result ≡ self.now.kind }
    {
        self.kind
    }

    /// Its dimensions, with the subscripts that are given.
    pub fn dimensions(&self) -> &[Dimension]
        ensures value { result.now ≡ self.now.dimensions }
        ensures most { length self.now.dimensions ≤ 8 }
    {
        &self.dimensions[..self.count]
    }

    /// The cell of an element, by the subscripts that aren't given; none where the array has no such element. F3 exactly
    /// where a subscript is outside its bounds.
    pub fn index(&self, subscripts: &[i32]) -> Result<Option<u32>, Fault>
        ensures value { result ≡ index_of self.now subscripts.now }
        ensures within { IfOk result (λ found. IfSome found (λ cell. cell < 32768)) }
    {
        let mut offset = 0;
        let mut next = 0;
        for dimension in self.dimensions() {
            let subscript = chosen(dimension.given, subscripts, next);
            next += usize::from(dimension.given.is_none());
            let Some(further) = dimension.further(subscript, offset) else {
                return Err(Fault::SubscriptOutsideBounds);
            };
            offset = further;
        }
        Ok((offset < self.total).then_some(self.first + offset))
    }

    /// The same where the array has one or two dimensions and none of its subscripts are given, found without a loop; none too
    /// where it takes more than that.
    #[inline(always)]
    pub fn index_at_once(&self, subscripts: &[i32]) -> Option<u32>
        ensures value { IfSome result (λ cell. index_of self.now subscripts.now ≡ Ok (Some cell)) }
        ensures within { IfSome result (λ cell. cell < 32768) }
    {
        match subscripts {
            [only] => self.index_of_one(*only),
            [first, second] => self.index_of_two(*first, *second),
            _ => None,
        }
    }

    /// The cell of an element of an array of one dimension.
    #[inline(always)]
    fn index_of_one(&self, only: i32) -> Option<u32>
        ensures value { IfSome result (λ cell. index_of self.now (only ∷ []) ≡ Ok (Some cell)) }
        ensures within { IfSome result (λ cell. cell < 32768) }
    {
        let [dimension] = self.dimensions() else {
            return None;
        };
        if dimension.given.is_some() {
            return None;
        }
        let offset = dimension.further(Some(only), 0)?;
        (offset < self.total).then_some(self.first + offset)
    }

    /// The cell of an element of an array of two dimensions.
    #[inline(always)]
    fn index_of_two(&self, first: i32, second: i32) -> Option<u32>
        ensures value { IfSome result (λ cell. index_of self.now (first ∷ second ∷ []) ≡ Ok (Some cell)) }
        ensures within { IfSome result (λ cell. cell < 32768) }
    {
        let [outer, inner] = self.dimensions() else {
            return None;
        };
        if outer.given.is_some() || inner.given.is_some() {
            return None;
        }
        let before = outer.further(Some(first), 0)?;
        let offset = inner.further(Some(second), before)?;
        (offset < self.total).then_some(self.first + offset)
    }

    /// The subarray of which these subscripts are given, where they are, of those that weren't. F3 exactly where one is
    /// outside its bounds.
    pub fn subarray(&self, subscripts: &[Option<i32>]) -> Result<Descriptor, Fault>
        ensures { result ≡ subarray_of self.now subscripts.now }
    {
        let mut dimensions = [Dimension::BLANK; MOST_DIMENSIONS];
        let mut next = 0;
        for (k, dimension) in self.dimensions().iter().enumerate() {
            let subscript = dimension.given.or(item_at(subscripts, next).flatten());
            next += usize::from(dimension.given.is_none());
            if !dimension.is_within(subscript) {
                return Err(Fault::SubscriptOutsideBounds);
            }
            dimensions[k] = dimension.with(subscript);
        }
        Ok(Descriptor {
            dimensions,
            ..*self
        })
    }
}

/// The subscript of a dimension: what is given of it, or else the one of this number.
#[inline(always)]
fn chosen(given: Option<i32>, subscripts: &[i32], number: usize) -> Option<i32>
    ensures { result ≡ option_or given (slice_get subscripts.now number) }
{
    match given {
        Some(given) => Some(given),
        None => item_at(subscripts, number),
    }
}
