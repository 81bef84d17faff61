//! The commands that a command line can give.

ghost use Rattle.std.specs.Prelude.{◌≡◌};
ghost use Rattle.command_line.specs.Orders as spec;

/// A command with its words, which it owns.
#[derive(Debug, Drop)]
pub enum Order {
    /// Runs a query over the tables of a directory.
    Run {
        /// The path of the schema.
        schema: String,
        /// The path of the directory, which has one CSV file for each table.
        directory: String,
        /// The text of the SELECT, or `@` and the path of a file that has it.
        query: String,
        /// Whether to explain a fault.
        why: bool,
    },
    /// Loads every table of a directory, and lists the number of rows of each.
    Check {
        /// The path of the schema.
        schema: String,
        /// The path of the directory, which has one CSV file for each table.
        directory: String,
        /// Whether to explain a table's fault.
        why: bool,
    },
    /// Relates two geometries by their DE-9IM matrix.
    Relate {
        /// The well-known text of the first geometry, or `@` and the path of a file that has it.
        first: String,
        /// The well-known text of the second geometry, or `@` and the path of a file that has it.
        second: String,
        /// Whether to explain a fault.
        why: bool,
    },
    /// Shows where two geometries meet, or why one isn't valid.
    Why {
        /// The well-known text of the first geometry, or `@` and the path of a file that has it.
        first: String,
        /// The well-known text of the second geometry, or `@` and the path of a file that has it, if there is one.
        second: Option<String>,
        /// Whether to explain a fault.
        why: bool,
    },
    /// Relates the two geometries of each record of a file.
    Pairs {
        /// The path of the file, or `-` for standard input.
        file: String,
        /// Whether to explain a fault.
        why: bool,
    },
    /// Explains a fault, or lists the codes of all faults.
    Fault {
        /// Words that contain the code of the fault, such as those of its line. Without words, the codes are listed.
        words: Vec<String>,
    },
}

impl Order {
    /// Whether a fault has to be explained.
    pub fn asks_why(&self) -> bool
        ensures { result ≡ spec.asks_why self.now }
    {
        match self {
            Order::Run { why, .. }
            | Order::Check { why, .. }
            | Order::Relate { why, .. }
            | Order::Why { why, .. }
            | Order::Pairs { why, .. } => *why,
            Order::Fault { .. } => false,
        }
    }

    /// The command with `--why`, which asks for the reason of a fault.
    pub fn with_why(self) -> Order
        ensures { result ≡ spec.with_why self }
    {
        match self {
            Order::Run {
                schema,
                directory,
                query,
                ..
            } => Order::Run {
                schema,
                directory,
                query,
                why: true,
            },
            Order::Check {
                schema,
                directory,
                ..
            } => Order::Check {
                schema,
                directory,
                why: true,
            },
            Order::Relate { first, second, .. } => Order::Relate {
                first,
                second,
                why: true,
            },
            Order::Why { first, second, .. } => Order::Why {
                first,
                second,
                why: true,
            },
            Order::Pairs { file, .. } => Order::Pairs { file, why: true },
            Order::Fault { words } => Order::Fault { words },
        }
    }
}
