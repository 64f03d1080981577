// A store that lists its picks.
use std::alloc::Global;
use std::test::Fail;
use tool_io::{Failed, Shelf, read_whole};

// A store of an empty file of every name, which tells its picks. Its count of faults stays at 0, the last value.
#[derive(Drop)]
struct Listing {
    alloc: Global,
    picked: Vec<String>,
    is_open: bool,
}

impl Shelf for Listing {
    ghost use Rattle.std.specs.Prelude.{◌≡◌, [], None, Some, true, map, string_bytes};

    ghost told = { λ _. None };

    ghost faults = { λ _ _. 0 };

    ghost is_last = { λ _ _. Unit {0} };

    ghost reads = { λ s _. s.is_open ≡ true };

    ghost left = { λ _. [] };

    ghost picks = { λ s. Some (map string_bytes s.picked.items) };

    fn pick(&mut self, name: &str) -> Result<(), Failed> {
        self.is_open = false;
        let Ok(picked) = String::from_str(self.alloc, name) else {
            return Err(Failed);
        };
        if self.picked.push(picked).is_err() {
            return Err(Failed);
        }
        self.is_open = true;
        Ok(())
    }

    fn read(&mut self, _into: &mut [u8]) -> Result<u32, Failed> {
        Ok(0)
    }
}

// The names that are listed after two files are read, the first of them twice, joined by commas.
fn names_of(alloc: Global) -> Result<String, Fail> {
    let mut shelf = Listing {
        alloc,
        picked: Vec::new(alloc),
        is_open: false,
    };
    for name in ["board", "program", "board"] {
        drop(read_whole(alloc, &mut shelf, name, 0)?);
    }
    let mut names = String::new(alloc);
    for name in shelf.picked.iter() {
        names.push_str(name.as_str())?;
        names.push_str(",")?;
    }
    drop(shelf);
    Ok(names)
}

#[test]
fn lists_each_pick(rt: HostRuntime) -> Result<(), Fail> {
    let names = names_of(rt.alloc())?;
    assert!(rt; names.as_str() == "board,program,board,");
    Ok(())
}
