//! What has a line of its own in a text, and an object of its own in JSON.
ghost use Rattle.std.specs.Prelude.{◌≡◌, false, IfOk};
ghost use Rattle.serde_json.specs.Data.{Data};
ghost use Rattle.serde_json.specs.View.{view};
ghost use Rattle.serde_json.specs.Written.{has_float};
ghost use Rattle.jc_report.specs.Text.{line_of_finding, line_of_collision, line_of_note};
ghost use Rattle.jc_report.specs.Json.{finding_json, collision_json, note_json};
ghost use Rattle.jc_report.specs.WarnForms.{line_of_warning, warning_json};

use crate::json_values::{collision_value, finding_value, note_value, warning_value};
use crate::lines::{collision_line, finding_line, note_line, warning_line};
use jc_facts::finding::Finding;
use jc_facts::verdict::{Collision, Note};
use jc_facts::warning::Warning;
use serde_json::Value;
use std::alloc::{AllocError, Global};

/// What has a line of its own in a text, and an object of its own in JSON: a finding, a collision, a
/// note or a warning.
pub trait Entry {
    ghost use Rattle.std.specs.Prelude.{List, ℕ};

    // Its line, where it has this number.
    ghost printed: { Self → ℕ → List ℕ };

    // Its object, where it has this number.
    ghost shaped: { Self → ℕ → Data };

    /// The line, its line end with it. A note or a warning has the same one under each number.
    ///
    /// # Errors
    ///
    /// `AllocError` where memory runs out.
    fn line(&self, alloc: Global, number: usize) -> Result<Vec<u8>, AllocError>
        ensures { IfOk result (λ line. line.items ≡ printed self.now number) };

    /// The object, in which no number has a fraction. A note or a warning has the same one under each number.
    ///
    /// # Errors
    ///
    /// `AllocError` where memory runs out.
    fn value(&self, alloc: Global, number: usize) -> Result<Value, AllocError>
        ensures exact { IfOk result (λ v. view v ≡ shaped self.now number) }
        ensures plain { has_float (shaped self.now number) ≡ false };
}

impl Entry for Finding {
    ghost printed = { λ finding number. line_of_finding number finding };

    ghost shaped = { λ finding number. finding_json number finding };

    fn line(&self, alloc: Global, number: usize) -> Result<Vec<u8>, AllocError> {
        finding_line(alloc, number, self)
    }

    fn value(&self, alloc: Global, number: usize) -> Result<Value, AllocError> {
        finding_value(alloc, number, self)
    }
}

impl Entry for Collision {
    ghost printed = { λ collision number. line_of_collision number collision };

    ghost shaped = { λ collision number. collision_json number collision };

    fn line(&self, alloc: Global, number: usize) -> Result<Vec<u8>, AllocError> {
        collision_line(alloc, number, self)
    }

    fn value(&self, alloc: Global, number: usize) -> Result<Value, AllocError> {
        collision_value(alloc, number, self)
    }
}

impl Entry for Note {
    ghost printed = { λ note number. line_of_note note };

    ghost shaped = { λ note number. note_json note };

    fn line(&self, alloc: Global, _number: usize) -> Result<Vec<u8>, AllocError> {
        note_line(alloc, self)
    }

    fn value(&self, alloc: Global, _number: usize) -> Result<Value, AllocError> {
        note_value(alloc, self)
    }
}

impl Entry for Warning {
    ghost printed = { λ warning number. line_of_warning warning };

    ghost shaped = { λ warning number. warning_json warning };

    fn line(&self, alloc: Global, _number: usize) -> Result<Vec<u8>, AllocError> {
        warning_line(alloc, self)
    }

    fn value(&self, alloc: Global, _number: usize) -> Result<Value, AllocError> {
        warning_value(alloc, self)
    }
}
