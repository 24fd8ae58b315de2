ghost use Rattle.std.specs.Prelude.{◌≡◌, IfOk};
ghost use Rattle.pb_edit.specs.Grammar.{IsEdit, edit_spelling};

use super::Edit;
use std::alloc::{AllocError, Global};

impl Edit {
    /// The one spelling of the edit: docs/FORMATS.md, "Edits".
    pub fn spell(&self, alloc: Global) -> Result<Vec<u8>, AllocError>
        requires { IsEdit self.now }
        ensures { IfOk result (λ bytes. bytes.items ≡ edit_spelling self.now) }
    {
        let mut bytes = Vec::new(alloc);
        self.encode(alloc, &mut bytes)?;
        Ok(bytes)
    }
}
