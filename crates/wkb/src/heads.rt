//! Heads of geometries: the order of bytes and the type. Each function ensures the outcome of the reader of its name in
//! `specs/BinaryReading.antt`.

ghost use Rattle.std.specs.Prelude.{◌≡◌, Ok, OnOk};
ghost use Rattle.wkb.specs.BinaryReading as spec;
ghost use Rattle.wkb.specs.ReadingSteps.{ReadsAs, Adds};

use crate::binary_fault::Refusal;
use crate::cursor::Cursor;
use geometry_model::GeometryType;

/// What is at the head of a geometry.
#[derive(Clone, Copy)]
pub struct Head {
    /// Whether the least byte of a number comes first.
    pub is_little: bool,
    /// The type.
    pub shape: GeometryType,
    /// The number of a reference system; 0 if none is written.
    pub system: u32,
}

/// The flag that says that the number of a reference system comes after the type.
const SYSTEM_FLAG: u32 = 0x2000_0000;

/// Whether a type has the flag of a reference system.
fn has_system(code: u32) -> bool
    ensures { result ≡ spec.has_system code }
{
    code / SYSTEM_FLAG % 2 == 1
}

/// The type without that flag.
fn without_flag(code: u32) -> u32
    ensures { result ≡ spec.without_flag code }
{
    if has_system(code) {
        code - SYSTEM_FLAG
    } else {
        code
    }
}

/// The type that a number names; `None` if it isn't one of the library's, or has a Z or an M.
fn type_of_code(code: u32) -> Option<GeometryType>
    ensures { result ≡ spec.type_of_code code }
{
    match code {
        1 => Some(GeometryType::Point),
        2 => Some(GeometryType::LineString),
        3 => Some(GeometryType::Polygon),
        4 => Some(GeometryType::MultiPoint),
        5 => Some(GeometryType::MultiLineString),
        6 => Some(GeometryType::MultiPolygon),
        _ => None,
    }
}

/// Reads the number of a reference system, if one comes; else it is 0.
#[tactic(auto, unfolding(crate::specs::BinaryReading::system))]
fn system(cursor: &mut Cursor<'_>, is_little: bool, code: u32) -> Result<u32, Refusal>
    ensures read { ReadsAs (λ n. n) (spec.system is_little code cursor.old) result cursor.new }
    ensures added { OnOk result (Adds cursor.old 0 0 cursor.new) }
{
    if has_system(code) {
        cursor.word(is_little)
    } else {
        Ok(0)
    }
}

/// Reads what comes after the order of the bytes of a head that begins at this byte.
#[tactic(auto, unfolding(crate::specs::BinaryReading::typed_head))]
fn typed_head(cursor: &mut Cursor<'_>, at: usize, is_little: bool) -> Result<Head, Refusal>
    ensures read { ReadsAs (λ h. h) (spec.typed_head at is_little cursor.old) result cursor.new }
    ensures added { OnOk result (Adds cursor.old 0 0 cursor.new) }
{
    let code = cursor.word(is_little)?;
    let system = system(cursor, is_little, code)?;
    match type_of_code(without_flag(code)) {
        None => Err(Refusal::UnknownType(at)),
        Some(shape) => Ok(Head {
            is_little,
            shape,
            system,
        }),
    }
}

/// Reads a head; at its first byte `Syntax` if that is no order of bytes, `UnknownType` if its type isn't one of the library's.
#[tactic(auto, unfolding(crate::specs::BinaryReading::head))]
pub fn read_head(cursor: &mut Cursor<'_>) -> Result<Head, Refusal>
    ensures read { ReadsAs (λ h. h) (spec.head cursor.old) result cursor.new }
    ensures added { OnOk result (Adds cursor.old 0 0 cursor.new) }
{
    let at = cursor.place();
    let order = cursor.byte()?;
    if order > 1 {
        return Err(Refusal::Syntax(at));
    }
    typed_head(cursor, at, order == 1)
}
