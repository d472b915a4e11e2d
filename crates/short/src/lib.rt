// Short lists, which lie in the value that holds them.
#![tactic(auto)]

ghost use Rattle.std.specs.Prelude.{◌≡◌, ◌-◌, ◌<◌, ◌≤◌, [], ◌∷◌, ◌++◌, length, take, slice_get, slice_set};

use std::marker::Model;

// A list of at most `N` items. It lies in the value that holds it, so it needs no memory and is copied with that value.
// The places behind its items hold whatever was in them. The kit's `ArrayVec` is not `Copy`.
#[derive(Clone, Copy)]
pub struct Short<T, const N: usize> {
    places: [T; N],
    len: usize,
}

impl<T, const N: usize> Model for Short<T, N> {
    ghost use Rattle.std.specs.Prelude.{◌≡◌, ◌≤◌, ◌++◌, length, take, drop};
    ghost use Rattle.std.proofs.Common.{arith, take-append-drop, length-take-le};
    ghost use Rattle.short.specs.Listed.{Listed};

    ghost Value = { Listed T };

    ghost view = { λ s. record { items = take s.len s.places; rest = drop s.len s.places } };

    ghost invariant = { λ s. (s.len ≤ N) × (length s.places ≡ N) };

    ghost inverse = { λ l. record { places = l.items ++ l.rest; len = length l.items } };

    ghost inverse_ok = { λ s h i. record {
      places = take-append-drop s.len s.places i;
      len = length-take-le s.len s.places (omega (arith, h.0, h.1)) i;
    } };
}

impl<T: Copy, const N: usize> Short<T, N> {
    // A list without items; `blank` fills its places.
    pub fn empty(blank: T) -> Short<T, N>
        ensures items { result.items ≡ [] }
    {
        Short {
            places: [blank; N],
            len: 0,
        }
    }

    // The items in their order.
    pub fn as_slice(&self) -> &[T]
        ensures items { result.now ≡ self.now.items }
        ensures fits { length self.now.items ≤ N }
    {
        &self.places[..self.len]
    }

    // Adds an item at the end.
    pub fn push(&mut self, item: T)
        requires { length self.old.items < N }
        ensures items { self.new.items ≡ self.old.items ++ item ∷ [] }
    {
        // the length is read once, before the write of which a compiler can't tell that it leaves the length
        let len = self.len;
        self.places[len] = item;
        self.len = len + 1;
    }

    // Writes an item in the place of another.
    pub fn set(&mut self, at: usize, item: T)
        requires { at < length self.old.items }
        ensures items { self.new.items ≡ slice_set self.old.items at item }
    {
        prove!(at < self.len);
        self.places[at] = item;
    }

    // Takes the last item off, where there is one.
    pub fn pop(&mut self) -> Option<T>
        ensures item { result ≡ slice_get self.old.items (length self.old.items - 1) }
        ensures items { self.new.items ≡ take (length self.old.items - 1) self.old.items }
    {
        let len = self.len.checked_sub(1)?;
        self.len = len;
        Some(self.places[len])
    }
}
