// A list in room for the most there can be, which lies in the value itself and is copied with it.
// The kit's `ArrayVec` is such a list and can't be copied, since what stands behind its items is not known. Here that
// is a blank, so that the items tell the whole value. What a call hands on (a ring's entries, the held writes, a
// sheet's pieces) lies in this one. It has no view (`impl Model`): a struct that holds a value with a view is not
// covered where it is handed on by value and used again. `items` (specs/Rack.antt) says which list it is.

ghost use Rattle.std.specs.Prelude.{⊤, ◌≡◌, ◌+◌, ◌<◌, ◌≤◌, [], ◌∷◌, ◌++◌, length, min};
ghost use Rattle.std.specs.Fn.{FnOnceReturnsAtMut};
ghost use Rattle.layout.specs.Rack.{items, IsTidy};

use std::alloc::AllocError;

// A type with a value for a place that isn't in use.
pub trait Blank: Copy {
    ghost blank: { Self };

    fn blank() -> Self
        ensures { result ≡ blank };
}

// At most ROOM items, in order.
pub struct Rack<T: Blank, const ROOM: usize> {
    // The items, and blanks behind them.
    places: [T; ROOM],
    // How many items there are.
    count: usize,
}

impl<T: Blank, const ROOM: usize> Clone for Rack<T, ROOM> {
    ghost is_clone = { λ r other. other ≡ r };

    ghost is_infallible = { λ _. ⊤ };

    fn clone(&self) -> Result<Self, AllocError> {
        Ok(*self)
    }
}

impl<T: Blank, const ROOM: usize> Copy for Rack<T, ROOM> {}

impl<T: Blank, const ROOM: usize> Rack<T, ROOM> {
    // A rack with no items.
    #[tactic(auto, unfolding(crate::specs::Rack::items, crate::specs::Rack::rack_of))]
    pub fn new() -> Self
        ensures items { items result ≡ [] }
        ensures tidy { IsTidy T.blank result }
    {
        Rack {
            places: [T::blank(); ROOM],
            count: 0,
        }
    }

    // How many places are in use. Nothing is asked of the count: one past the room, which no function here makes,
    // would count all places.
    fn used(&self) -> usize
        ensures { result ≡ min self.now.count ROOM }
    {
        self.count.min(ROOM)
    }

    // The items.
    #[tactic(auto, unfolding(crate::specs::Rack::items))]
    pub fn as_slice(&self) -> &[T]
        ensures value { result.now ≡ items self.now }
        ensures fits { length result.now ≤ ROOM }
    {
        let count = self.used();
        &self.places[..count]
    }

    // Puts an item behind the others. There is room for it.
    #[tactic(auto, using(crate::proofs::Racks::tidy_push), unfolding(crate::specs::Rack::items))]
    pub fn push(&mut self, item: T)
        requires { length (items self.old) < ROOM }
        ensures items { items self.new ≡ items self.old ++ item ∷ [] }
        ensures len { length (items self.new) ≡ length (items self.old) + 1 }
        ensures tidy { IsTidy T.blank self.old → IsTidy T.blank self.new }
    {
        self.places[self.count] = item;
        self.count += 1;
    }

    // Lends the items to be changed in place, as many as they are, and answers what the change answers.
    #[tactic(auto, using(crate::proofs::Racks::tidy_change), unfolding(crate::specs::Rack::items))]
    pub fn change<R, F: FnOnce(&mut [T]) -> R>(&mut self, change: F) -> R
        requires { F.IsAlwaysCallable change }
        ensures changed { FnOnceReturnsAtMut F.FnOnce change (items self.old) result (items self.new) }
        ensures len { length (items self.new) ≡ length (items self.old) }
        ensures tidy { IsTidy T.blank self.old → IsTidy T.blank self.new }
    {
        let count = self.used();
        change(&mut self.places[..count])
    }
}
