//! Tests of the controller's states and paths.
use tap_states::{Path, Tap};

/// The TMS values from each state to each state, written out from the state diagram of IEEE 1149.1: a row for each
/// first state and a column for each last one, both by the states' numbers, the first value on the left. The path to
/// reset is five ones by rule.
const PATHS: [[&str; 16]; 16] = [
    // from RESET
    [
        "11111", "0", "01", "010", "0100", "0101", "01010", "010101", "01011", "011", "0110",
        "01100", "01101", "011010", "0110101", "011011",
    ],
    // from IDLE
    [
        "11111", "", "1", "10", "100", "101", "1010", "10101", "1011", "11", "110", "1100", "1101",
        "11010", "110101", "11011",
    ],
    // from DRSELECT
    [
        "11111", "110", "", "0", "00", "01", "010", "0101", "011", "1", "10", "100", "101", "1010",
        "10101", "1011",
    ],
    // from DRCAPTURE
    [
        "11111", "110", "111", "", "0", "1", "10", "101", "11", "1111", "11110", "111100",
        "111101", "1111010", "11110101", "1111011",
    ],
    // from DRSHIFT
    [
        "11111", "110", "111", "1110", "", "1", "10", "101", "11", "1111", "11110", "111100",
        "111101", "1111010", "11110101", "1111011",
    ],
    // from DREXIT1
    [
        "11111", "10", "11", "110", "010", "", "0", "01", "1", "111", "1110", "11100", "11101",
        "111010", "1110101", "111011",
    ],
    // from DRPAUSE
    [
        "11111", "110", "111", "1110", "10", "101", "", "1", "11", "1111", "11110", "111100",
        "111101", "1111010", "11110101", "1111011",
    ],
    // from DREXIT2
    [
        "11111", "10", "11", "110", "0", "01", "010", "", "1", "111", "1110", "11100", "11101",
        "111010", "1110101", "111011",
    ],
    // from DRUPDATE
    [
        "11111", "0", "1", "10", "100", "101", "1010", "10101", "", "11", "110", "1100", "1101",
        "11010", "110101", "11011",
    ],
    // from IRSELECT
    [
        "11111", "10", "101", "1010", "10100", "10101", "101010", "1010101", "101011", "", "0",
        "00", "01", "010", "0101", "011",
    ],
    // from IRCAPTURE
    [
        "11111", "110", "111", "1110", "11100", "11101", "111010", "1110101", "111011", "1111", "",
        "0", "1", "10", "101", "11",
    ],
    // from IRSHIFT
    [
        "11111", "110", "111", "1110", "11100", "11101", "111010", "1110101", "111011", "1111",
        "11110", "", "1", "10", "101", "11",
    ],
    // from IREXIT1
    [
        "11111", "10", "11", "110", "1100", "1101", "11010", "110101", "11011", "111", "1110",
        "010", "", "0", "01", "1",
    ],
    // from IRPAUSE
    [
        "11111", "110", "111", "1110", "11100", "11101", "111010", "1110101", "111011", "1111",
        "11110", "10", "101", "", "1", "11",
    ],
    // from IREXIT2
    [
        "11111", "10", "11", "110", "1100", "1101", "11010", "110101", "11011", "111", "1110", "0",
        "01", "010", "", "1",
    ],
    // from IRUPDATE
    [
        "11111", "0", "1", "10", "100", "101", "1010", "10101", "1011", "11", "110", "1100",
        "1101", "11010", "110101", "",
    ],
];

/// Whether the path has the TMS values that are written as this text.
fn is_written(path: Path, text: &str) -> bool {
    let mut rest = path.bits;
    for byte in text.as_bytes() {
        if (rest % 2 == 1) != (*byte == b'1') {
            return false;
        }
        rest /= 2;
    }
    rest == 0 && path.len as usize == text.len()
}

// The first two states, by their numbers, whose path is another one than the table has.
fn wrong_path() -> Option<(u8, u8)> {
    for from in 0..16u8 {
        for to in 0..16u8 {
            let path = Tap::path(Tap::from_number(from), Tap::from_number(to));
            if !is_written(path, PATHS[from as usize][to as usize]) {
                return Some((from, to));
            }
        }
    }
    None
}

#[test]
fn has_the_paths_of_the_state_diagram(rt: HostRuntime) {
    let wrong = wrong_path();
    assert!(rt; wrong.is_none(), "between the states {wrong:?}");
}

#[test]
fn moves_from_state_to_state(rt: HostRuntime) {
    assert!(rt; Tap::DrShift.next(true) == Tap::DrExit1);
    assert!(rt; Tap::from_number(12) == Tap::IrExit1);
    assert!(rt; Tap::IrUpdate.number() == 15);
    assert!(rt; Tap::DrPause.is_stable());
    assert!(rt; !Tap::DrShift.is_stable());
}
