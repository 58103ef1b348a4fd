// A table of places that the caller lends: a slice of structs. Only these two functions look into it, so loops over a table go by its positions
// and no iterator.
//
// A function whose name ends in _unchecked is not offered to callers, as in trig.

#![tactic(auto)]

ghost use Rattle.std.specs.Prelude.{◌≡◌, ◌<◌, length, get_or, set};
ghost use Rattle.place.specs.Places.{blank_place};

use place::Place;

// The place at a position of a table, counted from 0; not offered to callers.
pub fn place_at_unchecked(table: &[Place], position: usize) -> Place
    requires { position < length table.now }
    ensures { result ≡ get_or table.now position blank_place }
{
    table[position]
}

// Stores a place at a position of a table; not offered to callers.
pub fn set_place_unchecked(table: &mut [Place], position: usize, place: Place)
    requires { position < length table.old }
    ensures { table.new ≡ set table.old position place }
{
    table[position] = place;
}
