//! Codes: how many operands they hold, and lists that are no code. Which codes are valid is shown by cases of tests/.
use base::ItemList;
use code_files::{DecodeRefused, decode_code};
use code_ranges::{is_in_range, is_short};
use stapl_code::CodeLists;
use stapl_meaning::Profile;
use std::alloc::Global;
use std::test::Fail;

// Files of codes without variables, with one text, a procedure P, and an action A of it; from the count of the
// instructions on. The most operands that each holds at once.
const DEPTHS: [(&[u8], u32); 3] = [
    // Turn 3, EndProc
    (b"\0\0\0\x02\x01\0\0\0\x03\x17", 0),
    // Turn 3, Push 0, Exit, Turn 4, EndProc
    (
        b"\0\0\0\x05\x01\0\0\0\x03\x02\0\0\0\0\x1B\x01\0\0\0\x04\x17",
        1,
    ),
    // Turn 3, Push 1, Push 2, Push 3, and a Print of three integers, EndProc
    (
        b"\0\0\0\x06\x01\0\0\0\x03\x02\0\0\0\x01\x02\0\0\0\x02\x02\0\0\0\x03\x18\0\0\0\x03\x01\x01\x01\x17",
        3,
    ),
];

const FRONT: &[u8] =
    b"STAPLC\0\x02\0\0\0\0\0\0\0\0\0\0\0\x01\0\0\0\x01A\0\0\0\x01\x01P\0\0\0\0\0\0\0\x01\x01A\0\0\0\x01\0\0\0\0\0";

// The most operands that the code of a file holds, whose lists are in range and short.
fn depth_in(alloc: Global, file: &[u8]) -> Result<Option<u32>, DecodeRefused> {
    let code = decode_code(alloc, file)?;
    let lists = code.raw().lists();
    let is_code = is_in_range(lists) && is_short(lists);
    let depth = code.depth();
    drop(code);
    Ok(if is_code { Some(depth) } else { None })
}

// The same of the file with these instructions.
fn depth_of(alloc: Global, instructions: &[u8]) -> Result<Option<u32>, Fail> {
    let mut file = FRONT.to_vec(alloc)?;
    file.extend_from_slice(instructions)?;
    Ok(depth_in(alloc, &file)?)
}

#[test]
fn counts_operands(rt: HostRuntime) -> Result<(), Fail> {
    for (instructions, depth) in DEPTHS {
        let found = depth_of(rt.alloc(), instructions)?;
        assert!(rt; found == Some(depth), "{depth} operands");
    }
    Ok(())
}

// Lists without an item.
fn empty(alloc: Global) -> CodeLists {
    CodeLists {
        profile: Profile::Two,
        variables: ItemList::of(Vec::new(alloc)),
        literals: ItemList::of(Vec::new(alloc)),
        texts: ItemList::of(Vec::new(alloc)),
        procedures: ItemList::of(Vec::new(alloc)),
        actions: ItemList::of(Vec::new(alloc)),
        instrs: ItemList::of(Vec::new(alloc)),
    }
}

// A code has a procedure and an action.
#[test]
fn refuses_lists_without_a_procedure(rt: HostRuntime) {
    let lists = empty(rt.alloc());
    let (in_range, short) = (is_in_range(&lists), is_short(&lists));
    drop(lists);
    assert!(rt; !in_range && short);
}
