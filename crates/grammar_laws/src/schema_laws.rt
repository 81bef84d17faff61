//! Laws of schemas, whatever names a type of geometry. Nothing here runs: each function has an empty body, and its
//! contract is a law of the definitions.

ghost use Rattle.grammar_laws.specs.SchemaLaws.{
  ReadIsSchema,
  SchemaIsRead,
  OneSchema,
  SchemaRefusalApplies,
  FirstSchemaFaultIsRead,
};

/// The tables as which a text is read are those of its schema by the grammar.
pub fn read_is_schema<T>()
    ensures { ReadIsSchema T }
{}

/// A text that is a schema by the grammar is read as the tables of that schema.
pub fn schema_is_read<T>()
    ensures { SchemaIsRead T }
{}

/// A text is at most one schema by the grammar.
pub fn one_schema<T>()
    ensures { OneSchema T }
{}

/// If a text is refused for a fault at a token, the fault applies there by the grammar.
pub fn schema_refusal_applies<T>()
    ensures { SchemaRefusalApplies T }
{}

/// If faults apply at tokens of a text, it is refused for the first of them.
pub fn first_schema_fault_is_read<T>()
    ensures { FirstSchemaFaultIsRead T }
{}
