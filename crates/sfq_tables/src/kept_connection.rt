//! The pointer to a database that a caller in C keeps.

ghost use Rattle.std.specs.Prelude.{◌≡◌, Option, Some};
ghost use Rattle.std.specs.Coded.{coded_option};
ghost use Rattle.library_calls.specs.Keeping.{held_owns, slot_owns};
ghost use Rattle.sfq_tables.specs.Connections.{Connected};
ghost use Rattle.sfq_tables.specs.contracts.connections.Connection.{the_row as connection_row};

use crate::connections::Connection;
use library_calls::parts::Parts;
use std::alloc::Global;
use std::marker::Model;

/// A database behind one pointer, which C holds. C passes it to one call at a time, which returns it, and at the end to
/// the call that frees it. Contracts see which database it is.
#[repr(C)]
pub struct KeptConnection {
    at: *mut u8,
    alloc: Global,
    pub ghost connection: { Connected } by { connection_row.coded },
}

impl Model for KeptConnection {
    ghost also_owns = { λ k. held_owns connection_row k.alloc k.at k.connection };
}

impl KeptConnection {
    /// Keeps the database of a box.
    pub fn of(whole: Box<Connection>) -> KeptConnection
        ensures { result.connection ≡ whole.value }
    {
        KeptConnection::of_parts(Parts::of(whole))
    }

    /// The box with the database.
    pub fn into_box(self) -> Box<Connection>
        ensures { result.value ≡ self.connection }
    {
        self.into_parts().into_box()
    }

    fn of_parts(parts: Parts<Connection, Global>) -> KeptConnection
        ensures { result.connection ≡ parts.value }
    {
        let Parts { at, alloc } = parts;
        KeptConnection {
            at: at as *mut u8,
            alloc,
        }
    }

    fn into_parts(self) -> Parts<Connection, Global>
        ensures { result.value ≡ self.connection }
    {
        let KeptConnection { at, alloc } = self;
        Parts {
            at: at as *mut Connection,
            alloc,
        }
    }
}

impl Drop for KeptConnection {
    fn drop(self) {
        drop(self.into_box());
    }
}

/// A kept database, or none, in the form of a [`KeptConnection`]. C reads the pointer from it after a call has written
/// one there. A slot that is overwritten forgets its content, so C passes only empty slots.
#[derive(Drop)]
#[repr(C)]
pub struct ConnectionSlot {
    at: *mut u8,
    alloc: Global,
    pub ghost connection: { Option Connected } by { coded_option connection_row.coded },
}

impl Model for ConnectionSlot {
    ghost also_owns = { λ s. slot_owns connection_row s.alloc s.at s.connection };
}

impl ConnectionSlot {
    /// Makes a slot with this database.
    pub fn of(kept: KeptConnection) -> ConnectionSlot
        ensures { result.connection ≡ Some kept.connection }
    {
        ConnectionSlot::of_parts(kept.into_parts())
    }

    fn of_parts(parts: Parts<Connection, Global>) -> ConnectionSlot
        ensures { result.connection ≡ Some parts.value }
    {
        let Parts { at, alloc } = parts;
        ConnectionSlot {
            at: at as *mut u8,
            alloc,
        }
    }
}
