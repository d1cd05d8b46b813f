ghost use Rattle.std.specs.Prelude.{◌≡◌, ◌<◌, ◌≤◌, IfOk, IfSome, length, true};
ghost use Rattle.algolw_typing.specs.ProgramView.{numbered};
ghost use Rattle.algolw_typing.specs.Types.{has};

use std::alloc::AllocError;
use std::marker::Model;
use value_ops::Place;

/// Places that go by their numbers, which are their positions. A place is found at once where they are in order, as those of a
/// program are, or two lists in order, as those of a program with a library are: the library's stand before its own.
#[derive(Drop)]
pub(crate) struct PlaceNumbers {
    places: Vec<Place>,
    /// The number with which the second list begins. It is how many places there are where they are one list.
    second: usize,
}

impl Model for PlaceNumbers {
    ghost use Rattle.std.specs.Prelude.{◌<◌, ◌≤◌, ◌^◌, List, length};
    ghost use Rattle.value_ops.specs.declared.places.Place.{Place};

    ghost Value = { List Place };

    ghost view = { λ n. n.places.items };

    ghost invariant = { λ n. (length n.places.items < 2 ^ 32) × (n.second ≤ length n.places.items) };
}

impl PlaceNumbers {
    /// The numbers of these places.
    pub(crate) fn new(places: Vec<Place>) -> Result<PlaceNumbers, AllocError>
        ensures { IfOk result (λ numbers. numbers ≡ places.items) }
    {
        if u32::try_from(places.len()).is_err() {
            return Err(AllocError);
        }
        let second = second_list(places.as_slice());
        Ok(PlaceNumbers { places, second })
    }

    /// A number of a place.
    pub(crate) fn number(&self, place: Place) -> u32
        requires { has self.now place ≡ true }
        ensures place { numbered self.now result ≡ place }
        ensures within { result < length self.now }
    {
        match self.find(place) {
            Some(number) => number,
            None => self.first_number(place),
        }
    }

    /// A number of a place, where the list in which it stands is in order.
    fn find(&self, place: Place) -> Option<u32>
        ensures place { IfSome result (λ number. numbered self.now number ≡ place) }
        ensures within { IfSome result (λ number. number < length self.now) }
    {
        let (first, second) = self.places.split_at(self.second);
        match first.binary_search(&place) {
            Ok(number) => Some(number as u32),
            Err(_) => match second.binary_search(&place) {
                Ok(number) => Some((self.second + number) as u32),
                Err(_) => None,
            },
        }
    }

    /// A number of a place, which is likely to be this one.
    pub(crate) fn likely_number(&self, likely: u32, place: Place) -> u32
        requires { has self.now place ≡ true }
        ensures place { numbered self.now result ≡ place }
        ensures within { result < length self.now }
    {
        match self.places.get(likely as usize) {
            Some(held) if *held == place => likely,
            _ => self.number(place),
        }
    }

    /// The first number of a place, wherever it stands.
    fn first_number(&self, place: Place) -> u32
        requires { has self.now place ≡ true }
        ensures place { numbered self.now result ≡ place }
        ensures within { result < length self.now }
    {
        for (number, held) in self.places.iter().enumerate() {
            if *held == place {
                return number as u32;
            }
        }
        unreachable!()
    }

    /// Whether this is the place with a number.
    pub(crate) fn is_at(&self, number: u32, place: Place) -> bool
        ensures { result ≡ true → numbered self.now number ≡ place }
    {
        match self.places.get(number as usize) {
            Some(held) => *held == place,
            None => false,
        }
    }

    /// The places.
    pub(crate) fn into_places(self) -> Vec<Place>
        ensures { result.items ≡ self }
    {
        self.places
    }
}

/// The number of the first place that stands before the one in front of it, or how many places there are.
fn second_list(places: &[Place]) -> usize
    ensures { result ≤ length places.now }
{
    for number in 1..places.len() {
        if places[number] < places[number - 1] {
            return number;
        }
    }
    places.len()
}
