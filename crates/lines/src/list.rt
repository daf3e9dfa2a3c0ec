// A list that has its places from the start, since no crate here takes memory while it runs. A script can look at what stands behind the values, so that
// all places can be read (not so those of the library's `ArrayVec`).
ghost use Rattle.std.specs.Prelude.{◌≡◌, ◌≤◌, ◌<◌, ◌∷◌, ◌++◌, [], length, take, min, ⊤};

use std::alloc::AllocError;

// Up to N values, in the first `count` places. Two lists are the same only if the places behind are, too.
#[derive(Debug, PartialEq, Eq)]
pub struct List<T, const N: usize> {
    pub places: [T; N],
    pub count: usize,
    ghost in_places: { count ≤ N },
}

impl<T: Copy, const N: usize> Copy for List<T, N> {}

impl<T: Copy, const N: usize> Clone for List<T, N> {
    ghost is_clone = { λ x y. y ≡ x };

    ghost is_infallible = { λ _. ⊤ };

    fn clone(&self) -> Result<List<T, N>, AllocError> {
        Ok(*self)
    }
}

impl<T: Copy, const N: usize> List<T, N> {
    // No values, and each place blank.
    pub fn new(blank: T) -> List<T, N>
        ensures { result.count ≡ 0 }
    {
        List {
            places: [blank; N],
            count: 0,
        }
    }

    // The first so many of these places, or all of them.
    pub fn first(places: [T; N], many: usize) -> List<T, N>
        ensures places { result.places ≡ places }
        ensures count { result.count ≡ min many N }
    {
        List {
            places,
            count: many.min(N),
        }
    }

    // The values.
    pub fn as_slice(&self) -> &[T]
        ensures { result.now ≡ take self.now.count self.now.places }
    {
        &self.places[..self.count]
    }

    // One value more behind the others, as long as there is a place.
    pub fn push(&mut self, value: T)
        ensures more { self.old.count < N → take self.new.count self.new.places ≡ take self.old.count self.old.places ++ value ∷ [] }
        ensures full { N ≤ self.old.count → self.new ≡ self.old }
    {
        if self.count < N {
            self.places[self.count] = value;
            self.count += 1;
        }
    }

    // No values any more. What stood in the places stays there.
    pub fn clear(&mut self)
        ensures none { self.new.count ≡ 0 }
        ensures places { self.new.places ≡ self.old.places }
    {
        self.count = 0;
    }
}
