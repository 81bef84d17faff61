//! The files that commands open.

ghost use Rattle.std.specs.Prelude.{◌≡◌};
ghost use Rattle.text_commands.specs.Files.{path_of};

/// A file that a command opens: its purpose for the command, and its path.
#[derive(Clone, Copy, Debug, PartialEq, Eq)]
pub enum File<'a> {
    /// The schema, of CREATE TABLE statements.
    Schema(&'a str),
    /// The CSV of a table.
    Table(&'a str),
    /// The text of a query. A word names the file instead of giving the text.
    Query(&'a str),
    /// The well-known text of a geometry. A word names the file instead of giving the text.
    Geometry(&'a str),
    /// The CSV of pairs of geometries.
    Pairs(&'a str),
}

impl<'a> File<'a> {
    /// The path of the file.
    pub fn path(self) -> &'a str
        ensures { result.now ≡ path_of self.entry }
    {
        match self {
            File::Schema(path)
            | File::Table(path)
            | File::Query(path)
            | File::Geometry(path)
            | File::Pairs(path) => path,
        }
    }
}
