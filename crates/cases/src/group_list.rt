// The stress groups of one line, up to eight.

ghost use Rattle.std.specs.Prelude.{◌≡◌, ◌≤◌, ◌<◌, List, [], ◌∷◌, ◌++◌, length, take, eqb};
ghost use Rattle.record.specs.declared.Group.{Group};
ghost use Rattle.cases.specs.Places.{unused, Held, taken, given_back};

use record::Group;
use std::marker::Model;

// A list of groups that never allocates: the first `count` of the places. The others hold `NONE`, so that the groups tell what all places hold: a type with
// a view is `Copy` only if the view forgets nothing. (`ArrayVec` has a record with a field of items for its value, so each definition that reads the groups
// would name that field. It asks for a `Default` of Group besides.)
#[derive(Clone, Copy)]
pub struct Groups {
    places: [Group; Self::MOST],
    count: usize,
}

impl Model for Groups {
    ghost Value = { List Group };

    ghost view = { λ g. take g.count g.places };

    ghost invariant = { λ g. Held g.places g.count };

    ghost inverse = { λ gs. record { places = gs ++ unused (length gs); count = length gs } };

    ghost inverse_ok = { λ g h i. record {
      places = given_back g.places g.count h i;
      count = taken g.places g.count h i;
    } };
}

impl Groups {
    pub const MOST: usize = 8;

    // No groups.
    pub fn new() -> Self
        ensures { result ≡ [] }
    {
        Groups {
            places: [Group::NONE; Self::MOST],
            count: 0,
        }
    }

    // How many there are. The library asks `is_empty` or takes the slice; it stays for callers, to whom it was promised.
    pub fn len(&self) -> usize
        ensures value { result ≡ length self.now }
        ensures upper_bound { result ≤ 8 }
    {
        self.as_slice().len()
    }

    // Whether there are none.
    pub fn is_empty(&self) -> bool
        ensures value { result ≡ eqb (length self.now) 0 }
        ensures upper_bound { length self.now ≤ 8 }
    {
        self.count == 0
    }

    // The groups in their order. That there are at most eight is said by `len`, `is_empty` and this one: whoever calls one knows it, where the value alone
    // does not show it.
    pub fn as_slice(&self) -> &[Group]
        ensures value { result.now ≡ self.now }
        ensures upper_bound { length result.now ≤ 8 }
    {
        &self.places[..self.count]
    }

    // One more group, behind the others.
    pub fn push(&mut self, group: Group)
        requires { length self.old < 8 }
        ensures { self.new ≡ self.old ++ group ∷ [] }
    {
        self.places[self.count] = group;
        self.count += 1;
    }
}
