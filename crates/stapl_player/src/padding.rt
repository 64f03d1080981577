//! Base padding for a run of neighbours of a chain.
ghost use Rattle.std.specs.Prelude.{◌≡◌, ◌<◌, ◌≤◌, ◌^◌, length, Some, All};
ghost use Rattle.dev_card.specs.Board.{most_devices};
ghost use Rattle.dev_card.specs.Descriptions.{IsGood};
ghost use Rattle.dev_card.specs.Padding.{instruction_lengths, base_lengths};
ghost use Rattle.scan_paths.specs.Scans.{lengths_of};

use dev_card::Desc;
use scan_paths::BasePads;

// The sum of the instruction lengths.
fn instruction_lengths(descs: &[Desc]) -> u32
    requires fits { instruction_lengths descs.now < 2 ^ 32 }
    ensures { result ≡ instruction_lengths descs.now }
{
    descs.iter().map(|desc| desc.ir_len).sum()
}

/// The base padding for a run of neighbours of a chain, from its first device to its last one, which are the same for a
/// single device. The descriptions of the chain are good and at most 64, nearest TDO first, and its devices are counted
/// from 1. What is shifted first ends nearest TDO, so ones before the program's bits stand for the devices before the
/// run, and ones after them for the devices after it: in scans of the instruction registers as many as the instructions
/// have bits, which selects BYPASS, and in scans of the data registers one for each device (IEEE 1149.1, BYPASS
/// register).
pub fn base_pads(descs: &[Desc], first: u32, last: u32) -> BasePads
    requires most { length descs.now ≤ most_devices }
    requires good { All IsGood descs.now }
    requires counted { 1 ≤ first }
    requires in_order { first ≤ last }
    requires within { last ≤ length descs.now }
    ensures { lengths_of result ≡ base_lengths descs.now (Some (record { first = first; last = last })) }
{
    let before = &descs[..first as usize - 1];
    let after = &descs[last as usize..];
    BasePads {
        pre_ir: instruction_lengths(before),
        post_ir: instruction_lengths(after),
        pre_dr: before.len() as u32,
        post_dr: after.len() as u32,
    }
}
