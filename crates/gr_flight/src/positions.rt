ghost use Rattle.std.specs.Prelude.{◌≡◌, ◌+◌, ◌*◌, Some, slice_get, OnOk};
ghost use Rattle.gr_batch.specs.Stages.{code_of};

use crate::newest::index_of;
use gr_base::OutOfMemory;
use gr_batch::Stage;

/// The number under which the position of a batch stands, by its sender and its stage.
pub(crate) fn slot_of(sender: u8, stage: Stage) -> usize
    ensures { result ≡ 7 * sender + code_of stage }
{
    7 * sender as usize + index_of(stage)
}

/// Puts a position under a number.
///
/// # Errors
///
/// `OutOfMemory` if memory runs out.
pub(crate) fn note_position(
    positions: &mut Vec<usize>,
    slot: usize,
    position: usize,
) -> Result<(), OutOfMemory>
    ensures { OnOk result (slice_get positions.new.items slot ≡ Some position) }
{
    if slot < positions.len() {
        positions[slot] = position;
        return Ok(());
    }
    positions.resize(slot, 0)?;
    match positions.push(position) {
        Ok(()) => Ok(()),
        Err(_) => Err(OutOfMemory),
    }
}
