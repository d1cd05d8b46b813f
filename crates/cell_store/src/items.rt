ghost use Rattle.std.specs.Prelude.{◌≡◌, ◌<◌, Some, length, option_copied, slice_get};

/// The item of this number, where there is one.
#[inline(always)]
pub(crate) fn item_at<T: Copy>(items: &[T], number: usize) -> Option<T>
    ensures { result ≡ slice_get items.now number }
{
    items.get(number).copied()
}

/// The item of this number, where there is one.
#[inline(always)]
pub(crate) fn ref_at<T>(items: &[T], number: usize) -> Option<&T>
    ensures { option_copied result ≡ slice_get items.now number }
{
    items.get(number)
}

/// The item of this number, which is there.
#[inline(always)]
pub(crate) fn item_there<T: Copy>(items: &[T], number: usize) -> T
    requires { number < length items.now }
    ensures { slice_get items.now number ≡ Some result }
{
    items[number]
}
