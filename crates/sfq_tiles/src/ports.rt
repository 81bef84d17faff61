//! What splitting reads and writes. A caller passes both, so that the contract of splitting can state their bytes.

ghost use Rattle.std.specs.Prelude.{◌≡◌, ℕ, Bool, List, Option, IfSome, OnOk, IfOk};

use std::alloc::AllocError;
use std::io::Read;
use streams::SinkFault;
use tiles::CellTexts;

/// The files that are read.
pub trait Sources {
    /// The reader of a file.
    type Reader: Read + Drop;

    /// The bytes of the file at a path, the same each time that it is opened; None if they aren't known.
    ghost bytes: { Self → List ℕ → Option (List ℕ) };

    /// Opens the file at a path. None if it can't be opened.
    fn open(&self, path: &str) -> Option<Self::Reader>
        ensures { IfSome result (λ reader. Self.Reader.remaining reader ≡ bytes self.now path.now) };
}

/// The target to which parts are written: a directory, which is made.
pub trait Targets {
    /// The texts of a part.
    type Texts: CellTexts + Drop;

    /// Whether something exists there already; None if that isn't known.
    ghost there: { Self → Option Bool };
    /// The directory was made, with a schema that has this text.
    ghost makes: { Self → List ℕ → Self → Type 0 };
    /// These are the texts of the tiles of the part with this name, to which nothing was added yet.
    ghost begins_tiles: { Self → List ℕ → Self.Texts → Type 0 };
    /// These are the texts of the stretches of the part with this name, to which nothing was added yet.
    ghost begins_stretches: { Self → List ℕ → Self.Texts → Type 0 };
    /// These texts were written completely.
    ghost takes: { Self → Self.Texts → Self → Type 0 };

    /// Whether something exists there already.
    fn is_there(&self) -> bool
        ensures { IfSome (there self.now) (λ known. result ≡ known) };

    /// Makes the directory with a schema.
    fn make(&mut self, schema: &[u8]) -> Result<(), SinkFault>
        ensures { OnOk result (makes self.old schema.now self.new) };

    /// Begins the texts of the tiles of a part. The error is that memory ran out.
    fn tiles(&self, part: &str) -> Result<Self::Texts, AllocError>
        ensures { IfOk result (begins_tiles self.now part.now) };

    /// Begins the texts of the stretches of a part. The error is that memory ran out.
    fn stretches(&self, part: &str) -> Result<Self::Texts, AllocError>
        ensures { IfOk result (begins_stretches self.now part.now) };

    /// Writes what is left of the texts of a part.
    fn finish(&mut self, texts: Self::Texts) -> Result<(), SinkFault>
        ensures { OnOk result (takes self.old texts self.new) };
}
