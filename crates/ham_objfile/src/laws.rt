//! Laws on object files in TOML.

ghost use Rattle.ham_objfile.specs.Tables.{IsTableReadBack, IsTomlReadBack};

/// The TOML table of an object is read as the object.
pub fn table_is_read_back()
    ensures { IsTableReadBack }
{}

/// Each text that writes the TOML table of a checked object is a text of the object.
pub fn toml_is_read_back()
    ensures { IsTomlReadBack }
{}
