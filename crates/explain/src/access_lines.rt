//! The lines of the accesses of a plan.

ghost use Rattle.explain.specs.Puts.{Puts};
ghost use Rattle.std.specs.Prelude.{◌≡◌, ◌++◌, [], map, slice_index_or, codes};
ghost use Rattle.table_model.specs.ExplainTexts.{access_line, access_lines, conjunct_number, method_text};

use itoa::Buffer;
use streams::{Sink, SinkFault, put_parts};
use table_model::conditions::Reference;
use table_model::plans::{Access, AccessMethod};

/// The number of the conjunct at a place.
pub(crate) fn digits(place: usize, buffer: &mut Buffer) -> &str
    ensures { result.now ≡ conjunct_number place }
{
    buffer.format(place as u128 + 1)
}

/// The name of the reference at a place; empty if there is none.
fn name_at(references: &[Reference], place: usize) -> &[u8]
    ensures { result.now ≡ slice_index_or (map (λ r. r.name) references.entry.now) place [] }
{
    match references.get(place) {
        Some(reference) => reference.name.as_slice(),
        None => b"",
    }
}

/// Writes the line of an access with the name of its reference and the text of its method, which is in two parts.
fn put_line<'l, S: Sink>(
    sink: &mut S,
    role: &'l [u8],
    name: &'l [u8],
    method: &'l [u8],
    number: &'l str,
) -> Result<(), SinkFault>
    ensures { Puts S.taken S.failures sink.old sink.new result
        (role.now ++ codes " " ++ name.now ++ codes " " ++ (method.now ++ number.now)
        ++ codes "\n") }
{
    let parts = [role, b" ", name, b" ", method, number.as_bytes(), b"\n"];
    put_parts(sink, &parts)
}

/// Writes the line of an access.
fn put_access<S: Sink>(
    sink: &mut S,
    references: &[Reference],
    role: &[u8],
    access: Access,
) -> Result<(), SinkFault>
    ensures { Puts S.taken S.failures sink.old sink.new result
        (access_line references.now role.now access) }
{
    let name = name_at(references, access.reference);
    match access.method {
        AccessMethod::Scan => put_line(sink, role, name, b"scan", ""),
        AccessMethod::Probe(place) => {
            let mut number = Buffer::new();
            put_line(sink, role, name, b"probe ", digits(place, &mut number))
        }
    }
}

/// Writes the lines of the accesses.
pub(crate) fn put_accesses<S: Sink>(
    sink: &mut S,
    references: &[Reference],
    accesses: &[Access],
) -> Result<(), SinkFault>
    ensures { Puts S.taken S.failures sink.old sink.new result
        (access_lines references.now accesses.now) }
{
    if accesses.is_empty() {
        return Ok(());
    }
    put_access(sink, references, b"outer", accesses[0])?;
    if accesses.len() == 1 {
        return Ok(());
    }
    put_access(sink, references, b"inner", accesses[1])
}
