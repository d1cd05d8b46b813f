use crate::rows::see;
use chunked_vec::ChunkedVec;
use std::test::Fail;

/// An item, if there is one.
fn item(list: &ChunkedVec<u32>, number: usize) -> Option<u32> {
    if number < list.len() {
        Some(list[number])
    } else {
        None
    }
}

/// Two full chunks and a third with two items, of which three are changed.
#[test]
fn items_at_the_ends_of_chunks(rt: HostRuntime) -> Result<(), Fail> {
    let mut list = ChunkedVec::new(rt.alloc());
    for number in 0..8_194_u32 {
        list.push(number)?;
    }
    for number in [4_095_usize, 4_096, 8_192] {
        if number < list.len() {
            list[number] = 9;
        }
    }
    for (number, wanted) in [
        (0, Some(0)),
        (4_094, Some(4_094)),
        (4_095, Some(9)),
        (4_096, Some(9)),
        (4_097, Some(4_097)),
        (8_191, Some(8_191)),
        (8_192, Some(9)),
        (8_193, Some(8_193)),
        (8_194, None),
    ] {
        see(&rt, "an item", item(&list, number) == wanted);
    }
    Ok(())
}
