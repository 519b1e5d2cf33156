//! What is said of clients has lines of its own in a text, and an object of its own in JSON.
ghost use Rattle.jc_answers.specs.ClientsJson.{client_json};
ghost use Rattle.jc_answers.specs.ClientsText.{client_text_of};

use crate::answer::Answer;
use crate::client_json::client_value;
use crate::client_text::client_text;
use jc_report::entry::Entry;
use serde_json::Value;
use std::alloc::{AllocError, Global};

impl Entry for Answer {
    ghost printed = { client_text_of };

    ghost shaped = { client_json };

    fn line(&self, alloc: Global, number: usize) -> Result<Vec<u8>, AllocError> {
        client_text(alloc, number, self)
    }

    fn value(&self, alloc: Global, number: usize) -> Result<Value, AllocError> {
        client_value(alloc, number, self)
    }
}
