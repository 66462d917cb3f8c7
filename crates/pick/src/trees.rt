// The entries of a heap as a tree that lies in an array, and the ways up and down in it.
ghost use Rattle.std.specs.Prelude.{◌≡◌, ◌<◌, ◌≤◌, length, SomeIff, nat_lt, slice_set};
ghost use Rattle.std.proofs.Props.{props};
ghost use Rattle.scheme.specs.Bounds.{most_points};
ghost use Rattle.pick.specs.Places.{above, below};
ghost use Rattle.pick.specs.Entries.{There, Back};

use crate::picks::SIZE;
use arrayvec::ArrayVec;

// A point that is outside, with its key.
#[derive(Clone, Copy, Default)]
pub(crate) struct Entry {
    pub point: u16,
    pub key: u64,
}

impl Entry {
    // Is this entry nearer the top? Of equal keys neither is: a derived order would compare the points too, and
    // so say which of them comes first.
    fn is_before(self, other: Entry) -> bool
        ensures { result ≡ nat_lt other.key self.key }
    {
        other.key < self.key
    }
}

// The place right above, unless it is the top.
fn parent(place: usize) -> Option<usize>
    ensures { SomeIff result (0 < place) (above place) }
{
    Some(place.checked_sub(1)? / 2)
}

// The first of the two places right below; the second follows it.
fn child(place: usize) -> usize
    requires { place ≤ most_points }
    ensures { result ≡ below place }
{
    2 * place + 1
}

// That a place lies in the tree is asked of each call: a place is a number, and the tree changes under it.
#[derive(Drop)]
pub(crate) struct Tree {
    entries: ArrayVec<Entry, SIZE>,
    // of each point the place of its entry, if it has one, so that no search is made for it
    places: [Option<u16>; SIZE],
    ghost all: { length places ≡ most_points },
    ghost there: { There entries.items places } by { Prim.hlevel props },
    ghost back: { Back entries.items places },
}

impl Tree {
    ghost use Rattle.pick.specs.Calls.{fresh, started, Takes};
    ghost use Rattle.pick.specs.Trees.{point_in, key_in, place_in, held_in, count, taken_of, InOrder, Climbing, Sinking};
    ghost use Rattle.pick.specs.Trees.{Exchanged, SmallerAbove, GreatestChild, GreaterChild};

    pub(crate) fn new() -> Tree
        ensures empty { count result ≡ 0 }
        ensures held { held_in result ≡ fresh most_points }
    {
        Tree {
            entries: ArrayVec::new(),
            places: [None; SIZE],
        }
    }

    // Entries of exactly the first `points` points, with key 0, whatever was there before.
    pub(crate) fn start(&mut self, points: u16)
        requires { points ≤ most_points }
        ensures ordered { InOrder self.new }
        ensures held { held_in self.new ≡ started most_points points }
    {
        self.entries.clear();
        self.places = [None; SIZE];
        // entry and place together, so that each finds the other after every turn
        for point in 0..points {
            self.entries.push(Entry { point, key: 0 });
            self.places[usize::from(point)] = Some(point);
        }
    }

    // The place of the entry of a point that is outside.
    pub(crate) fn place(&self, point: u16) -> Option<usize>
        ensures { result ≡ place_in self.now point }
    {
        self.places.get(usize::from(point))?.map(usize::from)
    }

    pub(crate) fn key(&self, place: usize) -> u64
        requires { place < count self.now }
        ensures { result ≡ key_in self.now place }
    {
        self.entries[place].key
    }

    // Lets two entries change places.
    fn swap(&mut self, a: usize, b: usize)
        requires first { a < count self.old }
        requires second { b < count self.old }
        ensures count { count self.new ≡ count self.old }
        ensures held { held_in self.new ≡ held_in self.old }
        ensures keys { Exchanged (key_in self.old) (key_in self.new) a b }
    {
        let first = usize::from(self.entries[a].point);
        let second = usize::from(self.entries[b].point);
        self.entries.swap(a, b);
        self.places.swap(first, second);
    }

    // The place above, if the entry at the place has to be there.
    fn overtaken(&self, place: usize) -> Option<usize>
        requires { place < count self.now }
        ensures { SmallerAbove (key_in self.now) place result }
    {
        let up = parent(place)?;
        self.entries[place]
            .is_before(self.entries[up])
            .then_some(up)
    }

    // Lets the entry at a place come up to where it belongs. It may only be too low. (Up and down stay two methods: what is out
    // of order on the way differs, so one method for both would take that, too, and is no plainer.)
    fn climb(&mut self, from: usize)
        requires within { from < count self.old }
        requires climbing { Climbing (key_in self.old) (count self.old) from }
        ensures ordered { InOrder self.new }
        ensures held { held_in self.new ≡ held_in self.old }
    {
        let mut place = from;
        while let Some(up) = self.overtaken(place) {
            self.swap(place, up);
            place = up;
        }
    }

    // Of the one or two places right below, the one whose entry comes first.
    fn first_child(&self, place: usize) -> Option<usize>
        requires { place ≤ count self.now }
        ensures { GreatestChild (key_in self.now) (count self.now) place result }
    {
        let count = self.entries.len();
        let left = child(place);
        let right = left + 1;
        if right < count && self.entries[right].is_before(self.entries[left]) {
            return Some(right);
        }
        (left < count).then_some(left)
    }

    // The place below whose entry has to be here.
    fn overtaking(&self, place: usize) -> Option<usize>
        requires { place ≤ count self.now }
        ensures { GreaterChild (key_in self.now) (count self.now) place result }
    {
        let down = self.first_child(place)?;
        self.entries[down]
            .is_before(self.entries[place])
            .then_some(down)
    }

    // Lets the entry at a place go down to where it belongs. It may only be too high.
    fn sink(&mut self, from: usize)
        requires within { from ≤ count self.old }
        requires sinking { Sinking (key_in self.old) (count self.old) from }
        ensures ordered { InOrder self.new }
        ensures held { held_in self.new ≡ held_in self.old }
    {
        let mut place = from;
        while let Some(down) = self.overtaking(place) {
            self.swap(place, down);
            place = down;
        }
    }

    // Gives the entry at a place a key that is no smaller.
    pub(crate) fn raise(&mut self, place: usize, key: u64)
        requires ordered { InOrder self.old }
        requires within { place < count self.old }
        requires grows { key_in self.old place ≤ key }
        ensures ordered { InOrder self.new }
        ensures held { held_in self.new
            ≡ slice_set (held_in self.old) (point_in self.old place) (Some key) }
    {
        self.entries[place].key = key;
        self.climb(place);
    }

    // Takes the entry at the top away, if there is any. The last one comes in its place and goes down.
    pub(crate) fn take(&mut self) -> Option<Entry>
        requires { InOrder self.old }
        ensures ordered { InOrder self.new }
        ensures takes { Takes (held_in self.old) (taken_of result) (held_in self.new) }
    {
        let last = self.entries.len().checked_sub(1)?;
        self.swap(0, last);
        let taken = self.entries.pop()?;
        self.places[usize::from(taken.point)] = None;
        self.sink(0);
        Some(taken)
    }
}
