ghost use Rattle.std.specs.Prelude.{◌≡◌, ◌≤◌, length, ⊤};

use std::alloc::AllocError;

mod list;

/// A list has no room for one item more.
#[derive(Clone, Copy, PartialEq, Eq, Debug)]
pub struct Full;

/// A list of at most `N` items, kept in an array and a length: the library promises to allocate nothing, so it is no
/// `Vec`, and ports are copied with their nodes, so it is no `ArrayVec`, which cannot be.
// No `Model` and no derived `==`: a `Copy` type's view has to give its fields back, and `==` would read the unused places.
#[derive(Copy)]
pub struct Bounded<T, const N: usize> {
    items: [T; N],
    len: usize,
    ghost whole: { length items ≡ N },
    ghost fits: { len ≤ N },
}

// By hand, since `Clone` is derived for no generic struct with a ghost field.
impl<T: Copy, const N: usize> Clone for Bounded<T, N> {
    ghost is_clone = { λ x y. y ≡ x };

    ghost is_infallible = { λ _. ⊤ };

    fn clone(&self) -> Result<Self, AllocError> {
        Ok(*self)
    }
}
