//! Lists in chunks, to the third chunk.

use std::alloc::{AllocError as OutOfMemory, Global};
use upc_values::{Chunked, Chunks};

// The numbers below this one.
fn below(alloc: Global, count: u32) -> Result<Chunks<u32>, OutOfMemory> {
    let mut list = Chunks::new(alloc);
    for number in 0..count {
        list.reserve()?;
        list.push_reserved(number);
    }
    Ok(list)
}

// Whether each member is its own number.
fn is_in_order(list: &Chunked<u32>) -> bool {
    let mut next = 0;
    for member in list.iter() {
        if *member != next {
            return false;
        }
        next = next.wrapping_add(1);
    }
    next as usize == list.len()
}

// So many members, and the members of these numbers.
const COUNTS: [u32; 6] = [0, 1, 4_095, 4_096, 4_097, 8_193];

#[test]
fn members_by_number(rt: HostRuntime) -> Result<(), OutOfMemory> {
    for count in COUNTS {
        let list = below(rt.alloc(), count)?;
        assert_eq!(rt; list.len(), count as usize);
        assert!(rt; list.is_empty() == (count == 0));
        assert!(rt; list.last().copied() == count.checked_sub(1));
        for number in COUNTS {
            let wanted = if number < count { Some(number) } else { None };
            assert!(rt;
                list.get(number as usize).copied() == wanted,
                "{count} {number}"
            );
        }
    }
    Ok(())
}

#[test]
fn members_in_order(rt: HostRuntime) -> Result<(), OutOfMemory> {
    for count in COUNTS {
        let list = Chunked::from_chunks(below(rt.alloc(), count)?);
        assert!(rt; is_in_order(&list), "{count}");
        assert_eq!(rt; list.into_chunks().len(), count as usize);
    }
    Ok(())
}

#[test]
fn a_list_of_a_vector(rt: HostRuntime) -> Result<(), OutOfMemory> {
    let list = Chunked::from_vec(rt.alloc(), Vec::from_array(rt.alloc(), [0, 1, 2])?)?;
    assert!(rt; is_in_order(&list));
    assert!(rt; !list.is_empty());
    assert!(rt; list.get(2).copied() == Some(2));
    Ok(())
}
