// The lowering takes from places of the text nothing but places: without them, the code is that of what has none.

ghost use Rattle.lowered_code_law.specs.PlacesLaws.{PlacesAloneFollowPlaces};

/// The code of a function, without its places, is the code of the function without places.
pub fn places_alone_follow_places()
    ensures { PlacesAloneFollowPlaces }
{}
