ghost use Rattle.std.specs.Prelude.{◌≡◌, ◌≤◌, Some, None, IfSome, if◌then◌else◌, map, min};
ghost use Rattle.cell_store.specs.Arrays.{dimension, elements, extent, is_within, place};
ghost use Rattle.cell_store.specs.Held.{further};

/// How many cells may be live.
pub(crate) const MOST_CELLS: u32 = 32768;

/// A dimension of an array.
#[derive(Clone, Copy)]
pub struct Dimension {
    /// The lower bound.
    pub lower: i32,
    /// The upper bound: one below the lower leaves no elements.
    pub upper: i32,
    /// The subscript that a subarray gives it.
    pub given: Option<i32>,
}

impl Dimension {
    /// What fills the room behind the dimensions of an array.
    pub(crate) const BLANK: Dimension = Dimension {
        lower: 0,
        upper: 0,
        given: None,
    };

    /// A dimension with these bounds, of which nothing is given.
    pub(crate) fn new(bounds: (i32, i32)) -> Dimension
        ensures { result ≡ dimension bounds }
    {
        Dimension {
            lower: bounds.0,
            upper: bounds.1,
            given: None,
        }
    }

    /// The same, of which this is given.
    pub(crate) fn with(self, given: Option<i32>) -> Dimension
        ensures { result ≡ record self { given = given } }
    {
        Dimension { given, ..self }
    }

    /// How many subscripts are within the bounds.
    #[inline(always)]
    fn extent(self) -> u64
        ensures value { result ≡ extent self }
        ensures most { result ≤ 4294967296 }
    {
        if self.upper < self.lower {
            return 0;
        }
        u64::from(self.upper.abs_diff(self.lower)) + 1
    }

    /// Whether a subscript is within the bounds, where it is given.
    pub(crate) fn is_within(self, subscript: Option<i32>) -> bool
        ensures { result ≡ is_within self subscript }
    {
        match subscript {
            Some(subscript) => self.lower <= subscript && subscript <= self.upper,
            None => true,
        }
    }

    /// How many subscripts are below one, none where none is given. None exactly where it is outside the bounds.
    #[inline(always)]
    fn place(self, subscript: Option<i32>) -> Option<u64>
        ensures value { result ≡ (if is_within self subscript then Some (place self subscript) else None) }
        ensures most { IfSome result (λ n. n ≤ 4294967295) }
    {
        match subscript {
            Some(subscript) => {
                if self.lower <= subscript && subscript <= self.upper {
                    Some(u64::from(subscript.abs_diff(self.lower)))
                } else {
                    None
                }
            }
            None => Some(0),
        }
    }

    /// How many elements stand in front, with this dimension, of so many in front by those before it; 32,768 stands for
    /// more. None exactly where the subscript is outside the bounds.
    #[inline(always)]
    pub(crate) fn further(self, subscript: Option<i32>, offset: u32) -> Option<u32>
        requires { offset ≤ 32768 }
        ensures { result ≡ further self subscript offset }
    {
        let below = self.place(subscript)?;
        Some(capped(u64::from(offset) * self.extent() + below))
    }
}

/// A number, for which 32,768 stands where it is more.
#[inline(always)]
fn capped(count: u64) -> u32
    ensures { result ≡ min count 32768 }
{
    count.min(u64::from(MOST_CELLS)) as u32
}

/// How many elements an array with these bounds has; 32,768 stands for more.
pub(crate) fn count_elements(bounds: &[(i32, i32)]) -> u32
    ensures { result ≡ min (elements (map dimension bounds.now)) 32768 }
{
    let mut count = 1;
    for bound in bounds {
        count = capped(u64::from(count) * Dimension::new(*bound).extent());
    }
    count
}
