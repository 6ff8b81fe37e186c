ghost use Rattle.std.specs.Prelude.{◌≡◌, ◌≢◌, [], IfOk, MatchOption};

use std::alloc::{AllocError, Global};
use std::marker::Model;

/// The path of a spool's file: a text that isn't empty.
#[derive(Debug)]
pub struct SpoolPath {
    text: String,
}

// Written out, so that the proof of a caller that drops a path stops at this function.
impl Drop for SpoolPath {
    fn drop(self) {
        let SpoolPath { text: _text } = self;
    }
}

impl Model for SpoolPath {
    ghost use Rattle.std.specs.Prelude.{◌≢◌, [], List, ℕ, string_bytes};

    ghost Value = { List ℕ };

    ghost view = { λ path. string_bytes path.text };

    ghost invariant = { λ path. string_bytes path.text ≢ [] };
}

impl SpoolPath {
    /// Makes a copy of the text, if it isn't empty. Fails if memory runs out.
    pub fn new(alloc: Global, text: &str) -> Result<Option<Self>, AllocError>
        ensures { IfOk result (λ found. MatchOption found (text.now ≡ [])
            (λ path. (path ≡ text.now) × (text.now ≢ []))) }
    {
        if text.is_empty() {
            return Ok(None);
        }
        let text = String::from_str(alloc, text)?;
        Ok(Some(SpoolPath { text }))
    }

    /// Returns the text.
    pub fn as_str(&self) -> &str
        ensures value { result.now ≡ self.now }
        ensures some { self.now ≢ [] }
    {
        self.text.as_str()
    }
}
