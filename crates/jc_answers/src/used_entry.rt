//! What has lines of its own in the text that names the lines of a check, and an object of its own in JSON.
ghost use Rattle.jc_answers.specs.UsedJson.{loss_json, explained_client_json, used_line_json};
ghost use Rattle.jc_answers.specs.UsedText.{line_of_loss, explained_client_of, line_of_used};

use crate::answer::Answer;
use crate::pair::Pair;
use crate::used::{Explained, UsedLine};
use crate::used_json::{explained_client_value, loss_value, used_value};
use crate::used_text::{explained_client, loss_line, used_line};
use jc_facts::outcome::Outcome;
use jc_report::entry::Entry;
use serde_json::Value;
use std::alloc::{AllocError, Global};

impl<'a> Entry for Pair<'a, Outcome, Option<usize>> {
    ghost printed = { line_of_loss };

    ghost shaped = { loss_json };

    fn line(&self, alloc: Global, _number: usize) -> Result<Vec<u8>, AllocError> {
        loss_line(alloc, self)
    }

    fn value(&self, alloc: Global, _number: usize) -> Result<Value, AllocError> {
        loss_value(alloc, self)
    }
}

impl<'a> Entry for Pair<'a, Answer, Explained> {
    ghost printed = { explained_client_of };

    ghost shaped = { explained_client_json };

    fn line(&self, alloc: Global, number: usize) -> Result<Vec<u8>, AllocError> {
        explained_client(alloc, number, self)
    }

    fn value(&self, alloc: Global, number: usize) -> Result<Value, AllocError> {
        explained_client_value(alloc, number, self)
    }
}

impl<'a> Entry for UsedLine<'a> {
    ghost printed = { line_of_used };

    ghost shaped = { used_line_json };

    fn line(&self, alloc: Global, _number: usize) -> Result<Vec<u8>, AllocError> {
        used_line(alloc, self)
    }

    fn value(&self, alloc: Global, _number: usize) -> Result<Value, AllocError> {
        used_value(alloc, self)
    }
}
