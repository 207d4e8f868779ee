//! What no contract says: that calls which take memory succeed.

ghost use Rattle.std.specs.Prelude.{◌<◌, ◌≤◌, length};

use std::alloc::Global;
use std::test::Fail;
use vr_model::{Neighbourhood, NoMemory, Seq, Text};

// 0, 7, 14 and so on, `n` of them.
fn sevens(alloc: Global, n: u32) -> Result<Seq<u32>, NoMemory>
    requires { n ≤ 100 }
{
    let mut places: Seq<u32> = Seq::new(alloc);
    for place in 0..n {
        places.push(place * 7)?;
    }
    Ok(places)
}

#[test]
fn lists_and_texts_are_kept(rt: HostRuntime) -> Result<(), Fail> {
    let alloc = rt.alloc();
    let places = sevens(alloc, 100)?;
    assert_eq!(rt; places.len(), 100);
    assert_eq!(rt; places.as_slice().last(), Some(&693));
    for name in ["", "time", "Länge", "a\nb"] {
        let text = Text::from_str(alloc, name)?;
        assert_eq!(rt; text.as_str(), name);
    }
    assert_eq!(rt; Neighbourhood::all(alloc)?.len(), 11);
    Ok(())
}

// One change of a list, by its number.
fn change(places: &mut Seq<u32>, number: u8, k: usize) -> Result<(), NoMemory>
    requires { k < length places.old }
{
    match number {
        0 => places.insert(k, 99)?,
        1 => {
            places.remove(k);
        }
        2 => places.set(k, 99),
        3 => places.swap(0, k),
        4 => places.truncate(k),
        _ => places.extend_from_slice(&[98, 99])?,
    }
    Ok(())
}

#[test]
fn lists_change_in_place(rt: HostRuntime) -> Result<(), Fail> {
    let alloc = rt.alloc();
    let cases: [(u8, usize, &[u32]); 8] = [
        (0, 0, &[99, 0, 7, 14, 21, 28, 35, 42, 49, 56, 63, 70, 77]),
        (0, 11, &[0, 7, 14, 21, 28, 35, 42, 49, 56, 63, 70, 99, 77]),
        (1, 0, &[7, 14, 21, 28, 35, 42, 49, 56, 63, 70, 77]),
        (1, 11, &[0, 7, 14, 21, 28, 35, 42, 49, 56, 63, 70]),
        (2, 9, &[0, 7, 14, 21, 28, 35, 42, 49, 56, 99, 70, 77]),
        (3, 4, &[28, 7, 14, 21, 0, 35, 42, 49, 56, 63, 70, 77]),
        (4, 2, &[0, 7]),
        (
            5,
            2,
            &[0, 7, 14, 21, 28, 35, 42, 49, 56, 63, 70, 77, 98, 99],
        ),
    ];
    for (number, k, wanted) in cases {
        let mut places = sevens(alloc, 12)?;
        assert!(rt; k < places.len());
        change(&mut places, number, k)?;
        assert_eq!(rt; places.as_slice(), wanted);
    }
    Ok(())
}

#[test]
fn lists_end_where_they_are_empty(rt: HostRuntime) -> Result<(), Fail> {
    let alloc = rt.alloc();
    let mut places: Seq<u32> = Seq::with_capacity(alloc, 12)?;
    assert!(rt; places.is_empty());
    assert_eq!(rt; places.pop(), None);
    places.extend_from_slice(&[3, 1, 2])?;
    assert_eq!(rt; places.iter().max(), Some(&3));
    assert_eq!(rt; places.pop(), Some(2));
    assert_eq!(rt; places.len(), 2);
    Ok(())
}
