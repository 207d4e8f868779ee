//! The places of numbers in one list.

ghost use Rattle.std.specs.Prelude.{◌≡◌, ◌<◌, ◌≤◌, All, length};
ghost use Rattle.vr_lists.specs.Places.{ArePlaces};

/// Writes over `places`, at each number, its first place in a list, from 0, or the length of the list if it is absent.
/// Of the list 5, 3, 5 number 5 gets 0, 3 gets 1 and each other 3. The list has at most 1000 numbers, and `places` has
/// an entry for each of them.
pub fn write_places(list: &[u32], places: &mut [u32])
    requires numbers { All (λ x. x < length places.old) list.now }
    requires few { length list.now ≤ 1000 }
    ensures { ArePlaces (length places.old) list.now places.new }
{
    let mut place = list.len();
    places.fill(place as u32);
    // backwards, so that the first place of a number is written last
    while place > 0 {
        place -= 1;
        places[list[place] as usize] = place as u32;
    }
}
