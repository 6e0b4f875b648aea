//! The places of names in a list, from a table that is made once. A look-up takes time that grows with the name.
#![tactic(auto)]

ghost use Rattle.std.specs.Prelude.{◌≡◌, OnOk, OnErr};
ghost use Rattle.std.specs.Option.{option_copied};
ghost use Rattle.pm_values.specs.Tables.{get};
ghost use Rattle.name_places.specs.Places.{KeepsFirst};

use pm_io::NoMemory;
use pm_values::Table;
use std::alloc::Global;

/// Notes that a name is at this place, unless it is at an earlier one.
pub fn add_place(
    alloc: Global,
    places: &mut Table<u32>,
    name: &[u8],
    place: u32,
) -> Result<(), NoMemory>
    ensures first { OnOk result (KeepsFirst places.old name.now place places.new) }
    ensures unchanged { OnErr result (places.new ≡ places.old) }
{
    if !places.contains(name) {
        places.put(alloc, name, place)?;
    }
    Ok(())
}

/// The place of the name, if it has one.
pub fn place_in(places: &Table<u32>, name: &[u8]) -> Option<u32>
    ensures { result ≡ get places.now name.now }
{
    places.get(name).copied()
}
