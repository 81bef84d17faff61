//! The envelope of the geometry that a field spells.

ghost use Rattle.std.specs.Prelude.{◌≡◌, ◌⊎◌, IfErr, IfOk, option_map};
ghost use Rattle.geometry_model.specs.Envelopes.{envelope};
ghost use Rattle.tiles.specs.PlainRecords.{IsMemory};
ghost use Rattle.tiles.specs.RecordLines.{SpellsNoGeometry, geometry_in_field};
ghost use Rattle.table_model.specs.declared.faults.LoadFault.TheVariants as load;

use rtree::Envelope;
use std::alloc::Global;
use table_model::faults::LoadFault;
use validity::envelope_of;

/// The envelope of the geometry in a field, if the field isn't empty. The fault is OutOfMemory, or ReadFailed if it spells none.
#[tactic(auto, unfolding(crate::specs::RecordLines::geometry_in_field))]
pub(crate) fn envelope_in(
    alloc: Global,
    field: &[u8],
) -> Result<Option<Option<Envelope>>, LoadFault>
    ensures found { IfOk result (λ found. found ≡ option_map envelope (geometry_in_field field.now)) }
    ensures fault { IfErr result (λ f. IsMemory f ⊎ ((f ≡ load.ReadFailed) × SpellsNoGeometry field.now)) }
{
    if field.is_empty() {
        return Ok(None);
    }
    match wkt::read(alloc, field) {
        Ok(geometry) => Ok(Some(envelope_of(&geometry))),
        Err(fault) => match fault.text_fault() {
            Some(_) => Err(LoadFault::ReadFailed),
            None => Err(LoadFault::OutOfMemory),
        },
    }
}
