// Lists of at most so many items, in memory of a fixed size.
//
// `ShortList`    takes no heap, is `Copy`, and can be written down as a constant
#![tactic(auto)]

ghost use Rattle.std.specs.Prelude.{◌≡◌, ◌≤◌, ◌==◌, [], length};
ghost use Rattle.short_lists.specs.ShortLists.{Fits, Pushes};

use std::marker::Model;

// At most N items, in an array with its length beside, since nothing may be allocated. What lies in the room past `len` means nothing.
#[derive(Clone, Copy)]
pub struct ShortList<T, const N: usize> {
    pub room: [T; N],
    pub len: usize,
}

impl<T, const N: usize> Model for ShortList<T, N> {
    ghost use Rattle.std.specs.Prelude.{◌≡◌, ◌≤◌, ◌++◌, length, take, drop};
    ghost use Rattle.std.proofs.Common.{arith, take-append-drop, length-take-le};
    ghost use Rattle.short_lists.specs.ShortLists.{ShortItems, short_items_code};

    ghost Value = { ShortItems T };

    ghost coded = { short_items_code T.code };

    ghost view = { λ l. record { items = take l.len l.room; spare = drop l.len l.room } };

    ghost invariant = { λ l. (l.len ≤ N) × (length l.room ≡ N) };

    ghost inverse = { λ v. record { room = v.items ++ v.spare; len = length v.items } };

    ghost inverse_ok = { λ l h i. record {
      room = take-append-drop l.len l.room i;
      len = length-take-le l.len l.room (omega (arith, h.0, h.1)) i;
    } };
}

impl<T: Copy, const N: usize> ShortList<T, N> {
    // No item. The room is filled with copies of `blank`.
    pub fn empty(blank: T) -> ShortList<T, N>
        ensures { result.items ≡ [] }
    {
        ShortList {
            room: [blank; N],
            len: 0,
        }
    }

    // A copy of these items, or none where there is no room for them. The rest of the room is filled with copies of `blank`.
    pub fn of(items: &[T], blank: T) -> Option<ShortList<T, N>>
        ensures { Fits N items.now result }
    {
        if items.len() > N {
            return None;
        }
        let mut list = ShortList::empty(blank);
        list.fill(items);
        Some(list)
    }

    // Puts these items in the place of those that are there.
    fn fill(&mut self, items: &[T])
        requires { length items.now ≤ N }
        ensures { self.new.items ≡ items.now }
    {
        self.room[..items.len()].copy_from_slice(items);
        self.len = items.len();
    }

    // How many items there are.
    pub fn len(&self) -> usize
        ensures value { result ≡ length self.now.items }
        ensures fits { result ≤ N }
    {
        self.as_slice().len()
    }

    // Whether there is no room for another item.
    pub fn is_full(&self) -> bool
        ensures value { result ≡ (length self.now.items == N) }
        ensures fits { length self.now.items ≤ N }
    {
        self.len == N
    }

    // The items, in order.
    pub fn as_slice(&self) -> &[T]
        ensures value { result.now ≡ self.now.items }
        ensures fits { length result.now ≤ N }
    {
        &self.room[..self.len]
    }

    // Puts an item behind the others and answers its index, or answers none where there is no room and leaves the list as it was.
    pub fn push(&mut self, item: T) -> Option<usize>
        ensures { Pushes N self.old item self.new result }
    {
        if self.is_full() {
            return None;
        }
        let index = self.len;
        self.room[index] = item;
        self.len = index + 1;
        Some(index)
    }
}
