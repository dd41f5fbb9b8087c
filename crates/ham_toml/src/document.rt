//! The reader of TOML.

ghost use Rattle.ham_forms.specs.Outcomes.{Gives};
ghost use Rattle.ham_toml.specs.Toml.{toml_of};

use crate::tables::document;
use ham_check::Raw;
use ham_forms::FileFault;
use std::alloc::Global;

/// The object that the bytes are a TOML file of.
#[tactic(auto, using(crate::proofs::Documents::not_text, crate::proofs::Documents::not_toml, crate::proofs::Documents::is_document))]
pub fn read_document(alloc: Global, bytes: &[u8]) -> Result<Raw, FileFault>
    ensures { Gives result (toml_of bytes.now) }
{
    let text = match std::str::from_utf8(bytes) {
        Ok(text) => text,
        Err(e) => {
            return Err(FileFault::NotUtf8 {
                at: e.valid_up_to() as u64,
            });
        }
    };
    match toml::table_from_str(alloc, text) {
        Ok(table) => document(alloc, &table),
        Err(e) => {
            if e.is_memory() {
                return Err(FileFault::NoMemory);
            }
            Err(FileFault::NotToml)
        }
    }
}
