//! Laws of the places, each the contract of a function that does nothing.
ghost use Rattle.thy_table.specs.Places.{NumbersNamePlaces, PlacesAreBetweenSlots, PlacesAreInDram, SlotsAreApart};

/// Places of one device that have the same number are the same place.
pub fn numbers_name_places()
    ensures { NumbersNamePlaces }
{}

/// A place of the NVM lies after the header, the commit block and the slots of version 1, and before the slots of
/// version 2.
pub fn places_are_between_slots()
    ensures { PlacesAreBetweenSlots }
{}

/// The number of each place of the DRAM lies below the DRAM's size.
pub fn places_are_in_dram()
    ensures { PlacesAreInDram }
{}

/// The slots of version 1 follow the commit block, one after the other, and the homes follow them. The slots of version
/// 2 follow all that version 1 has, and end the image.
pub fn slots_are_apart()
    ensures { SlotsAreApart }
{}
