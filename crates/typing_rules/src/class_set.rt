ghost use Rattle.std.specs.Prelude.{◌≡◌, ◌∷◌, [], IfOk};
ghost use Rattle.algolw_typing.specs.Types.{has, is_empty, is_same_set, share_one, union};
ghost use Rattle.typing_rules.specs.ClassSets.{Rising, Rising-prop, is_within};

use bumpalo::Bump;
use bumpalo::collections::into_bump_slice;
use std::alloc::AllocError;
use std::cmp::Ordering;
use value_ops::Place;

/// The places of no class.
static NO_PLACES: &[Place] = &[];

/// A set of record classes.
#[derive(Clone, Copy)]
pub struct ClassSet<'a> {
    /// The places of their declarations, each once, in order. They stand behind one pointer, so that types are small.
    places: &'a &'a [Place],
    pub ghost rising: { Rising places.now.now } by { Rising-prop places.now.now },
}

impl<'a> ClassSet<'a> {
    /// The set of no class.
    pub fn none() -> ClassSet<'a>
        ensures { result.places.now.now ≡ [] }
    {
        ClassSet { places: &NO_PLACES }
    }

    /// The set of one class, in the arena.
    pub fn one(arena: &'a Bump, class: Place) -> Result<ClassSet<'a>, AllocError>
        ensures { IfOk result (λ set. set.places.now.now ≡ class ∷ []) }
    {
        let classes: &'a [Place] = arena.try_alloc_slice_copy(&[class])?;
        let places = arena.try_alloc(classes)?;
        Ok(ClassSet { places })
    }

    /// The set of these classes, in the arena.
    pub fn new(
        arena: &'a Bump,
        mut classes: Vec<Place, &'a Bump>,
    ) -> Result<ClassSet<'a>, AllocError>
        ensures { IfOk result (λ set. set.places.now.now ≡ union classes.entry.items []) }
    {
        classes.sort_unstable();
        classes.dedup();
        let classes: &'a [Place] = into_bump_slice(classes);
        let places = arena.try_alloc(classes)?;
        Ok(ClassSet { places })
    }

    /// The places of its classes, each once, in order.
    pub fn places(self) -> &'a [Place]
        ensures same { result.now ≡ self.entry.places.now.now }
        ensures rising { Rising result.now }
    {
        *self.places
    }

    /// Whether it has no class.
    pub fn is_empty(self) -> bool
        ensures { result ≡ is_empty self.entry.places.now.now }
    {
        let places = *self.places;
        places.is_empty()
    }

    /// Whether it has a class.
    pub fn has(self, class: Place) -> bool
        ensures { result ≡ has self.entry.places.now.now class }
    {
        let places = *self.places;
        places.contains(&class)
    }

    /// Whether two sets are equal.
    pub fn is_same_set(self, other: ClassSet<'_>) -> bool
        ensures { result ≡ is_same_set self.entry.places.now.now other.entry.places.now.now }
    {
        *self.places == *other.places
    }

    /// Whether two sets have a class in common.
    pub fn shares_one(self, other: ClassSet<'_>) -> bool
        ensures { result ≡ share_one self.entry.places.now.now other.entry.places.now.now }
    {
        let (mut classes, mut others) = (*self.places, *other.places);
        while let ([class, classes_behind @ ..], [other, others_behind @ ..]) = (classes, others) {
            match class.cmp(other) {
                Ordering::Less => classes = classes_behind,
                Ordering::Equal => return true,
                Ordering::Greater => others = others_behind,
            }
        }
        false
    }

    /// Whether each class of it is in the other set.
    pub fn is_within(self, other: ClassSet<'_>) -> bool
        ensures { result ≡ is_within self.entry.places.now.now other.entry.places.now.now }
    {
        let (mut classes, mut others) = (*self.places, *other.places);
        while let ([class, classes_behind @ ..], [other, others_behind @ ..]) = (classes, others) {
            match class.cmp(other) {
                Ordering::Less => return false,
                Ordering::Equal => {
                    classes = classes_behind;
                    others = others_behind;
                }
                Ordering::Greater => others = others_behind,
            }
        }
        classes.is_empty()
    }

    /// Two sets together: one of the two where the other is within it, else in the arena.
    pub fn union(self, arena: &'a Bump, other: ClassSet<'a>) -> Result<ClassSet<'a>, AllocError>
        ensures { IfOk result (λ all. all.places.now.now ≡ union self.entry.places.now.now other.entry.places.now.now) }
    {
        if self.is_within(other) {
            return Ok(other);
        }
        if other.is_within(self) {
            return Ok(self);
        }
        let merged = self.merged(arena, other)?;
        let places = arena.try_alloc(merged)?;
        Ok(ClassSet { places })
    }

    /// The classes of two sets together, in the arena.
    fn merged(self, arena: &'a Bump, other: ClassSet<'_>) -> Result<&'a [Place], AllocError>
        ensures { IfOk result (λ all. all.now ≡ union self.entry.places.now.now other.entry.places.now.now) }
    {
        let (mut classes, mut others) = (*self.places, *other.places);
        let mut all = Vec::with_capacity(arena, classes.len().saturating_add(others.len()))?;
        while let ([class, classes_behind @ ..], [other, others_behind @ ..]) = (classes, others) {
            match class.cmp(other) {
                Ordering::Less => {
                    all.push(*class)?;
                    classes = classes_behind;
                }
                Ordering::Equal => {
                    all.push(*class)?;
                    classes = classes_behind;
                    others = others_behind;
                }
                Ordering::Greater => {
                    all.push(*other)?;
                    others = others_behind;
                }
            }
        }
        all.extend_from_slice(classes)?;
        all.extend_from_slice(others)?;
        Ok(into_bump_slice(all))
    }
}
