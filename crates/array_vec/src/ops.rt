// How a list is made, read and written.
ghost use Rattle.std.specs.Prelude.{◌≡◌, [], ◌∷◌, ◌++◌, length, take, is_ok, IfErr, if◌then◌else◌, nat_lt};
ghost use Rattle.array_vec.specs.Items.{items_of};

use super::ArrayVec;
use std::alloc::AllocError;

impl<T: Copy, const N: usize> ArrayVec<T, N> {
    // No items yet; `filler` stands in the places that are left: a segment has no default of its own.
    pub fn new(filler: T) -> Self
        ensures { items_of result ≡ [] }
    {
        ArrayVec {
            places: [filler; N],
            used: 0,
        }
    }

    // The first N of some items.
    pub fn from_slice(items: &[T], filler: T) -> Self
        ensures { items_of result ≡ take N items.now }
    {
        let mut list = ArrayVec::new(filler);
        list.extend_from_slice(items);
        list
    }

    pub fn len(&self) -> usize
        ensures { result ≡ length (items_of self.now) }
    {
        self.as_slice().len()
    }

    pub fn as_slice(&self) -> &[T]
        ensures { result.now ≡ items_of self.now }
    {
        &self.places[..self.used]
    }

    // A copy of its places, of which the items are the first.
    pub fn to_array(&self) -> [T; N]
        ensures { take (length (items_of self.now)) result ≡ items_of self.now }
    {
        let ArrayVec { places, used: _ } = *self;
        places
    }

    // One item more; a full list hands it back and stays as it is.
    pub fn push(&mut self, item: T) -> Result<(), T>
        ensures test { is_ok result ≡ nat_lt (length (items_of self.old)) N }
        ensures items { items_of self.new ≡ (if nat_lt (length (items_of self.old)) N then items_of self.old ++ (item ∷ []) else items_of self.old) }
        ensures refused { IfErr result (λ x. x ≡ item) }
    {
        if self.used >= N {
            return Err(item);
        }
        self.places[self.used] = item;
        self.used += 1;
        Ok(())
    }

    // As many of these items more as there is room for.
    pub fn extend_from_slice(&mut self, items: &[T])
        ensures { items_of self.new ≡ take N (items_of self.old ++ items.now) }
    {
        let n = (N - self.used).min(items.len());
        let places = &mut self.places[..];
        places[self.used..self.used + n].copy_from_slice(&items[..n]);
        self.used += n;
    }

    pub fn clear(&mut self)
        ensures { items_of self.new ≡ [] }
    {
        self.used = 0;
    }
}

// By hand: no `Clone` is derived beside a ghost field where the items are a parameter.
impl<T: Copy, const N: usize> Clone for ArrayVec<T, N> {
    ghost is_clone = { λ v w. w ≡ v };

    ghost is_infallible = { λ _. Unit {0} };

    fn clone(&self) -> Result<Self, AllocError> {
        Ok(*self)
    }
}
