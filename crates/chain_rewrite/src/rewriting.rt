//! A program that carries its padding.
ghost use Rattle.std.specs.Prelude.{◌≡◌, ℕ, ◌≤◌, All, Some, Err, length, IfOk, IsErrOf};
ghost use Rattle.stapl_syntax.specs.ProgramValues.{trees_of};
ghost use Rattle.dev_card.specs.Board.{most_devices};
ghost use Rattle.dev_card.specs.Descriptions.{IsGood};
ghost use Rattle.dev_card.specs.Padding.{base_lengths};
ghost use Rattle.carried_plays.specs.OwnPaddings.{IsFirstPadding};
ghost use Rattle.chain_rewrite.specs.Rewritten.{IsRewritten, BecomesTooLarge};
ghost use Rattle.chain_rewrite.specs.declared.rewriting.RewriteRefused.TheVariants as refusals;

use crate::carrying::print_carried;
use crate::names::{new_name, pieces};
use crate::own_paddings::first_padding;
use carried_plays::laws::base_padding_is_short;
use dev_card::Desc;
use stapl_player::base_pads;
use stapl_print::PrintRefused;
use stapl_syntax::Program;
use std::alloc::Global;
use thiserror::Error;

/// The most pieces of a program.
const PIECE_LIMIT: usize = 100_000;

/// Pieces of the new procedure.
const NEW_PIECES: usize = 6;

/// Why a program is not rewritten.
#[derive(Clone, Copy, Debug, PartialEq, Eq, Error)]
pub enum RewriteRefused {
    /// The first piece, counted from 1, that sets a padding, also inside IF.
    #[error("piece {0} sets a padding")]
    OwnPadding(u32),
    /// There would be more than 100,000 pieces, or the text would have more than 4,194,304 bytes.
    #[error("the new program is too large")]
    TooLarge,
    /// There was no memory.
    #[error("out of memory")]
    Memory,
}

/// The canonical text of a program that plays on the whole chain as this program does with base padding for a run of
/// devices: from its first to its last one, counted from 1, nearest TDO first. Each action gets a first item, and
/// before the CRC, or at the end, stands the procedure that it names, which sets the padding (JESD71, PREIR, POSTIR,
/// PREDR, POSTDR).
///
/// `OwnPadding` comes exactly if a piece sets a padding, and names the first one; else `TooLarge` exactly if there
/// would be too many pieces or bytes. `Memory` is want of memory. The time is linear in the program.
pub fn rewrite(
    alloc: Global,
    program: &Program,
    descs: &[Desc],
    first: u32,
    last: u32,
) -> Result<Vec<u8>, RewriteRefused>
    requires most { length descs.now ≤ most_devices }
    requires good { All IsGood descs.now }
    requires counted { 1 ≤ first }
    requires in_order { first ≤ last }
    requires within { last ≤ length descs.now }
    ensures text { IfOk result (λ text. IsRewritten
        (base_lengths descs.now (Some (record { first = first; last = last }))) (trees_of program.now) text.items) }
    ensures own_padding { (i : ℕ) → result ≡ Err (refusals.OwnPadding i) → IsFirstPadding (trees_of program.now) i }
    ensures too_large { IsErrOf result RewriteRefused.TooLarge → BecomesTooLarge
        (base_lengths descs.now (Some (record { first = first; last = last }))) (trees_of program.now) }
{
    base_padding_is_short();
    let statements = pieces(program);
    if let Some(piece) = first_padding(statements) {
        return Err(RewriteRefused::OwnPadding(piece));
    }
    if statements.len() + NEW_PIECES > PIECE_LIMIT {
        return Err(RewriteRefused::TooLarge);
    }
    let Ok(name) = new_name(alloc, program) else {
        return Err(RewriteRefused::Memory);
    };
    match print_carried(alloc, statements, &name, &base_pads(descs, first, last)) {
        Ok(text) => Ok(text),
        Err(PrintRefused::TooLarge) => Err(RewriteRefused::TooLarge),
        Err(PrintRefused::Memory) => Err(RewriteRefused::Memory),
    }
}
