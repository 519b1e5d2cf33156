//! Dropped interfaces, as text and as JSON.
ghost use Rattle.std.specs.Prelude.{◌≡◌, IfOk};
ghost use Rattle.serde_json.specs.View.{view};
ghost use Rattle.jc_report.specs.DroppedForms.{line_of_dropped, dropped_value_of};

use crate::entry::Entry;
use crate::json_values::name_value;
use crate::printed::push_printed;
use jc_facts::dropped::Dropped;
use serde_json::{Value, json};
use std::alloc::{AllocError, Global};

// The line of one, its line end with it.
#[tactic(auto, unfolding(crate::specs::DroppedForms::line_of_dropped))]
fn dropped_line(alloc: Global, dropped: &Dropped) -> Result<Vec<u8>, AllocError>
    ensures { IfOk result (λ line. line.items ≡ line_of_dropped dropped.now) }
{
    let mut line = Vec::from_slice(alloc, b"dropped ")?;
    push_printed(&mut line, dropped.class.as_bytes())?;
    line.extend_from_slice(b" ")?;
    push_printed(&mut line, dropped.interface.as_bytes())?;
    line.extend_from_slice(b"\n")?;
    Ok(line)
}

// The object of one.
fn dropped_value(alloc: Global, dropped: &Dropped) -> Result<Value, AllocError>
    ensures { IfOk result (λ v. view v ≡ dropped_value_of dropped.now) }
{
    json!(in alloc; {
        "class": name_value(alloc, &dropped.class)?,
        "interface": name_value(alloc, &dropped.interface)?
    })
}

impl Entry for Dropped {
    ghost printed = { λ dropped number. line_of_dropped dropped };

    ghost shaped = { λ dropped number. dropped_value_of dropped };

    fn line(&self, alloc: Global, _number: usize) -> Result<Vec<u8>, AllocError> {
        dropped_line(alloc, self)
    }

    fn value(&self, alloc: Global, _number: usize) -> Result<Value, AllocError> {
        dropped_value(alloc, self)
    }
}
