//! The bytes of a file, for whoever reads it, side by side. Over `Bytes`.

ghost use Rattle.std.specs.Prelude.{◌≡◌, IfOk};

use crate::text::Bytes;
use std::alloc::{AllocError, Global};
use std::marker::Model;
use std::sync::Arc;

/// The bytes of a file, seen as a list. A clone is the same file once more, without a copy of its bytes.
pub struct FileBytes {
    shared: Arc<Bytes, Global>,
}

impl Drop for FileBytes {
    fn drop(self) {
        let FileBytes { shared: _ } = self;
    }
}

impl Model for FileBytes {
    ghost use Rattle.std.specs.Prelude.{List, ℕ};
    ghost use Rattle.std.specs.Arc.{arc_value};

    ghost Value = { List ℕ };

    ghost view = { λ a. arc_value a.shared };
}

impl FileBytes {
    /// The file that has these bytes.
    pub fn new(alloc: Global, bytes: Bytes) -> Result<Self, AllocError>
        ensures { IfOk result (λ file. file ≡ bytes) }
    {
        Ok(FileBytes {
            shared: Arc::new(alloc, bytes)?,
        })
    }

    /// The bytes as a slice.
    pub fn get(&self) -> &[u8]
        ensures { result.now ≡ self.now }
    {
        self.shared.get()
    }
}

impl Clone for FileBytes {
    ghost is_clone = { λ a copy. copy ≡ a };

    fn clone(&self) -> Result<Self, AllocError> {
        Ok(FileBytes {
            shared: self.shared.clone()?,
        })
    }
}
